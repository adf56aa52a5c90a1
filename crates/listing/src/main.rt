// The listing of the table that the commands on standard input leave, and nothing else.
#![tactic(auto)]

fn main(rt: HostRuntime) {
    let mut words = [0u32; pool::MOST_WORDS + 16];
    let mut out = rt.stdout();
    session::run(&mut rt.stdin(), &mut out, &mut words, false);
    let _ = reply::list(&mut out, &words);
}
