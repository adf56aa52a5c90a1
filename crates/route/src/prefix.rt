ghost use Rattle.std.specs.Prelude.{◌≡◌};
ghost use Rattle.model.specs.Prefix.{well_formed, matches, before, same};
ghost use Rattle.model.specs.Masked.{masked_length, masked};
ghost use Rattle.model.specs.Ipv4.{may_hold};
ghost use Rattle.route.specs.Means.{prefix_of};

use super::answer::measure;

// A prefix length: how many bits of the address count.
#[derive(Clone, Copy, PartialEq, Eq)]
pub struct Length(pub u32);

impl Length {
    // The length that goes with a mask: its ones, or one that no prefix has where the mask has a hole.
    #[tactic(auto, unfolding(crate::specs::Masks::measured_as, model::specs::Masked::masked_length))]
    pub fn of_mask(mask: u32) -> Length
        ensures { result.0 ≡ masked_length 32 mask }
    {
        measure(mask).unwrap_or(Length(Prefix::WIDTH + 1))
    }
}

// The prefix of a route: an address and how much of it counts.
#[derive(Clone, Copy, PartialEq, Eq)]
pub struct Prefix {
    pub address: u32,
    pub length: Length,
}

impl Prefix {
    // The width of an address in bits: the length of a host's prefix.
    pub const WIDTH: u32 = 32;

    // 0.0.0.0/0.
    pub const DEFAULT: Prefix = Prefix {
        address: 0,
        length: Length(0),
    };

    pub fn new(address: u32, length: Length) -> Prefix
        ensures { (result.address ≡ address) × (result.length.0 ≡ length.0) }
    {
        Prefix { address, length }
    }

    pub fn default_route() -> Prefix
        ensures { (result.address ≡ 0) × (result.length.0 ≡ 0) }
    {
        Prefix::DEFAULT
    }

    // The mask's ones are the length. A mask with a hole makes a prefix that no call takes, so that each answers 3 at its place.
    pub fn with_mask(address: u32, mask: u32) -> Prefix
        ensures { prefix_of result ≡ masked 32 address mask }
    {
        Prefix {
            address,
            length: Length::of_mask(mask),
        }
    }

    pub fn host(address: u32) -> Prefix
        ensures { (result.address ≡ address) × (result.length.0 ≡ 32) }
    {
        Prefix {
            address,
            length: Length(Prefix::WIDTH),
        }
    }

    // Whether document 01's "What the table holds" allows the prefix: the length fits the width, and no bit is set past it.
    #[tactic(auto, unfolding(model::specs::Prefix::well_formed))]
    pub fn well_formed(self) -> bool
        ensures { result ≡ well_formed 32 (prefix_of self) }
    {
        let length = self.length.0;
        length <= Prefix::WIDTH && bits::is_clear(self.address, length)
    }

    // Whether the table may hold it, of those that are well formed.
    #[tactic(auto, unfolding(model::specs::Ipv4::may_hold))]
    pub fn may_be_held(self) -> bool
        ensures { result ≡ may_hold (prefix_of self) }
    {
        true
    }

    // Whether a destination's first bits are the prefix's. A length past the width counts as the width, so that whatever a
    // damaged pool holds has an answer.
    #[tactic(auto, unfolding(model::specs::Prefix::matches, bits::specs::Address::first))]
    pub fn matches(self, destination: u32) -> bool
        ensures { result ≡ matches 32 (prefix_of self) destination }
    {
        let length = self.length.0;
        let address = self.address;
        if Prefix::WIDTH < length {
            return destination == address;
        }
        bits::first_bits(destination, length) == bits::first_bits(address, length)
    }

    // Whether it comes before another in the walk: the lower address first, for one address the longer prefix.
    #[tactic(auto, unfolding(model::specs::Prefix::before))]
    pub fn comes_before(self, other: Prefix) -> bool
        ensures { result ≡ before (prefix_of self) (prefix_of other) }
    {
        (self.address, other.length.0) < (other.address, self.length.0)
    }

    // Whether the two are one prefix.
    #[tactic(auto, unfolding(model::specs::Prefix::same))]
    pub fn is(self, other: Prefix) -> bool
        ensures { result ≡ same (prefix_of self) (prefix_of other) }
    {
        self == other
    }
}
