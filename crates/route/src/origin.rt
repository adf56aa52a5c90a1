ghost use Rattle.std.specs.Prelude.{◌≡◌};
ghost use Rattle.model.specs.State.{guards};
ghost use Rattle.model.specs.Ipv4.{good_metric, hand_of};
ghost use Rattle.route.specs.Means.{origin_of, hand_is};

// How far away a learned route leads.
#[derive(Clone, Copy, PartialEq, Eq)]
pub struct Metric(pub u32);

// The last metric that a learned route may have; the first is 1.
pub const LAST_METRIC: u32 = 15;

// Where a route came from: the keeper fixed it, or it was learned.
#[derive(Clone, Copy, PartialEq, Eq)]
pub enum Origin {
    Fixed,
    Learned(Metric),
}

impl Origin {
    // A learned metric runs from 1 to 15.
    #[tactic(auto, unfolding(model::specs::Ipv4::good_metric))]
    pub fn is_good(self) -> bool
        ensures { result ≡ good_metric (origin_of self) }
    {
        match self {
            Origin::Fixed => true,
            Origin::Learned(metric) => 1 <= metric.0 && metric.0 <= LAST_METRIC,
        }
    }

    // Whose hand makes such a route.
    pub fn hand(self) -> Hand
        ensures { hand_is result ≡ hand_of (origin_of self) }
    {
        match self {
            Origin::Fixed => Hand::Plain,
            Origin::Learned(_) => Hand::Learner,
        }
    }
}

// Whose hand makes a change: the keeper's own, by a plain call, or a learner's.
#[derive(Clone, Copy, PartialEq, Eq)]
pub enum Hand {
    Plain,
    Learner,
}

impl Hand {
    // Whether what this hand made is guarded from another: a learner leaves a fixed route alone.
    pub fn guards(self, by: Hand) -> bool
        ensures { result ≡ guards (hand_is self) (hand_is by) }
    {
        self == Hand::Plain && by == Hand::Learner
    }
}
