// Commands on standard input, one a line, and an answer line for each on standard output. The pool is inside the program: its
// words are 0 before the first fresh, which is a damaged pool.
#![tactic(auto)]

fn main(rt: HostRuntime) {
    let mut words = [0u32; pool::MOST_WORDS + 16];
    session::run(&mut rt.stdin(), &mut rt.stdout(), &mut words, true);
}
