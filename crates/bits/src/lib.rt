// The bits of an address, the bit at which two part, and masks. Bit 0 is the highest. What each
// function answers is a definition of specs/, which holds for any width; here the width is 32.
#![tactic(auto)]

ghost use Rattle.std.specs.Prelude.{◌≡◌, ◌≤◌, ◌<◌};
ghost use Rattle.bits.specs.Address.{first, bit, clear, Part};
ghost use Rattle.bits.specs.Answer.{mask_answer};

// Bit 0 is the highest, so the shift counts down from 31.
pub fn bit_of(address: u32, index: u32) -> u32
    requires { index < 32 }
    ensures { result ≡ bit 32 index address }
{
    (address >> (31 - index)) % 2
}

// A shift by 32 is not allowed, so length 0, which would need one, takes no shift.
pub fn first_bits(address: u32, length: u32) -> u32
    requires { length ≤ 32 }
    ensures { result ≡ first 32 length address }
{
    if length == 0 {
        return 0;
    }
    address >> (32 - length)
}

// By trailing zeros, which take no shift, so length 0 is no special case.
pub fn is_clear(address: u32, length: u32) -> bool
    requires { length ≤ 32 }
    ensures { result ≡ clear 32 length address }
{
    32 <= length + address.trailing_zeros()
}

// Bits that the two share are zeros of the xor, so its leading zeros end where they part.
pub fn parting(x: u32, y: u32) -> u32
    ensures { Part 32 x y result }
{
    (x ^ y).leading_zeros()
}

// The length of an old-format mask, or none where it has a hole. Where ones and trailing zeros fill the 32 bits, no 0 is left that has
// a 1 after it.
pub fn mask_length(mask: u32) -> Option<u32>
    ensures { result ≡ mask_answer mask }
{
    let ones = mask.count_ones();
    let is_good = ones + mask.trailing_zeros() == 32;
    if is_good { Some(ones) } else { None }
}
