ghost use Rattle.std.specs.Prelude.{◌≡◌, ℕ, ◌+◌, ◌<◌, ◌≤◌, true, false, length, drop, slice_index};
ghost use Rattle.std.specs.Fn.{FnOnceReturnsAt};
ghost use Rattle.numeral.specs.Decimal.{ReadAs};
ghost use Rattle.numeral.specs.Octets.{ReadAddress};
ghost use Rattle.numeral.specs.Words.{index_of, is_blank, from_word, word_at, Behind, uncommented_of, TakenAs};
ghost use Rattle.numeral.specs.declared.wrong.Fault as fault;

use super::number::{address, decimal};
use super::wrong::Fault;

// Where a byte stands first, from a place on, or the end.
pub fn find(s: &[u8], from: usize, b: u8) -> usize
    requires { from ≤ length s.now }
    ensures within { result ≤ length s.now }
    ensures first { result ≡ from + index_of b (drop from s.now) }
{
    from + count_until(&s[from..], |x| x == b)
}

// How many bytes stand before the first at which a test stops, or how many there are where it stops at none.
fn count_until<F: Fn(u8) -> bool>(s: &[u8], stops: F) -> usize
    requires { F.IsAlwaysCallable stops }
    ensures within { result ≤ length s.now }
    ensures goes_on { (k : ℕ) → k < result → F.post stops (slice_index s.now k) false }
    ensures stops { result < length s.now → F.post stops (slice_index s.now result) true }
{
    s.iter().position(|x| stops(*x)).unwrap_or(s.len())
}

fn is_blank(b: u8) -> bool
    ensures { result ≡ is_blank b }
{
    b == b' ' || b == b'\t'
}

// A line of text, and the place up to which it was read.
#[derive(Clone, Copy)]
pub struct Line<'a> {
    pub text: &'a [u8],
    pub at: usize,
}

impl<'a> Line<'a> {
    // The text without its comment, and nothing of it read.
    pub fn new(text: &'a [u8]) -> Line<'a>
        ensures { (result.text.now ≡ uncommented_of text.now) × (result.at ≡ 0) }
    {
        let end = find(text, 0, b'#');
        Line {
            text: &text[..end],
            at: 0,
        }
    }

    // Where the next word begins, or the end of the line.
    fn start(&self) -> usize
        ensures { (result ≤ length self.now.text.now) × (drop result self.now.text.now ≡ from_word self.now.text.now self.now.at) }
    {
        let from = self.at.min(self.text.len());
        from + count_until(&self.text[from..], |b| !is_blank(b))
    }

    // The place behind the next word.
    fn end(&self) -> usize
        ensures { Behind self.now.text.now self.now.at result }
    {
        let start = self.start();
        start + count_until(&self.text[start..], is_blank)
    }

    // The next word. An empty one says that there is none.
    pub fn word(&self) -> &'a [u8]
        ensures { result.now ≡ word_at self.now.text.now self.now.at }
    {
        let start = self.start();
        let rest = &self.text[start..];
        &rest[..count_until(rest, is_blank)]
    }

    // Passes the next word.
    pub fn skip(&mut self)
        ensures { (self.new.text.now ≡ self.old.text.now) × Behind self.old.text.now self.old.at self.new.at }
    {
        self.at = self.end();
    }

    // The next word as it is read, and the line is behind it. A word that is refused is not passed, and where there is none, that is told.
    fn take<F: FnOnce(&[u8]) -> Option<u32>>(&mut self, read: F, bad: Fault) -> Result<u32, Fault>
        requires { F.IsAlwaysCallable read }
        ensures text { self.new.text.now ≡ self.old.text.now }
        ensures taken { TakenAs (λ w r. FnOnceReturnsAt F.FnOnce read w r) bad self.old.text.now self.old.at result self.new.at }
    {
        let word = self.word();
        if word.is_empty() {
            return Err(Fault::TooFewWords);
        }
        let n = read(word).ok_or(bad)?;
        self.skip();
        Ok(n)
    }

    // The next word as a number.
    pub fn number(&mut self) -> Result<u32, Fault>
        ensures text { self.new.text.now ≡ self.old.text.now }
        ensures taken { TakenAs ReadAs fault.Fault.BadNumber self.old.text.now self.old.at result self.new.at }
    {
        self.take(decimal, Fault::BadNumber)
    }

    // The next word as an address.
    pub fn address(&mut self) -> Result<u32, Fault>
        ensures text { self.new.text.now ≡ self.old.text.now }
        ensures taken { TakenAs ReadAddress fault.Fault.BadAddress self.old.text.now self.old.at result self.new.at }
    {
        self.take(address, Fault::BadAddress)
    }
}
