ghost use Rattle.std.specs.Prelude.{◌≡◌, ◌+◌, ◌*◌, ◌-◌, ◌≤◌, SomeIff, length};
ghost use Rattle.numeral.specs.Decimal.{ReadAs};
ghost use Rattle.numeral.specs.Octets.{OctetAt, NextAt, ReadAddress};

use super::line::find;

// What a digit counts, or none where the byte is no digit.
fn digit_of(b: u8) -> Option<u32>
    ensures { SomeIff result ((48 ≤ b) × (b ≤ 57)) (b - 48) }
{
    match b {
        b'0'..=b'9' => Some((b - b'0') as u32),
        _ => None,
    }
}

// A number with one digit more, or none where 32 bits can't hold it.
fn with_digit(value: u32, digit: u32) -> Option<u32>
    ensures { SomeIff result (value * 10 + digit ≤ 4294967295) (value * 10 + digit) }
{
    value.checked_mul(10)?.checked_add(digit)
}

// A decimal number. It is tested at each digit, so that a long one can't wrap into the range.
pub fn decimal(s: &[u8]) -> Option<u32>
    ensures { ReadAs s.now result }
{
    if s.is_empty() {
        return None;
    }
    let mut value = 0;
    for b in s {
        value = with_digit(value, digit_of(*b)?)?;
    }
    Some(value)
}

// One octet more, from a place up to the next dot or the end, and where it ends.
fn octet(s: &[u8], from: usize, before: u32) -> Option<(u32, usize)>
    requires { (from ≤ length s.now) × (before ≤ 16777215) }
    ensures { OctetAt s.now from before result }
{
    let end = find(s, from, b'.');
    let n = decimal(&s[from..end])?;
    if 255 < n {
        return None;
    }
    Some((before * 256 + n, end))
}

// One octet more, behind the dot that must stand at a place.
fn next_octet(s: &[u8], dot: usize, before: u32) -> Option<(u32, usize)>
    requires { before ≤ 16777215 }
    ensures { NextAt s.now dot before result }
{
    if s.len() <= dot {
        return None;
    }
    octet(s, dot + 1, before)
}

// Four octets with dots between them, and nothing behind.
pub fn address(s: &[u8]) -> Option<u32>
    ensures { ReadAddress s.now result }
{
    let (a, i) = octet(s, 0, 0)?;
    let (b, j) = next_octet(s, i, a)?;
    let (c, k) = next_octet(s, j, b)?;
    let (d, end) = next_octet(s, k, c)?;
    if end < s.len() {
        return None;
    }
    Some(d)
}
