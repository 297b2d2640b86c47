// Numbers below a bound: the values of more than one algebra.
ghost use Rattle.std.specs.Prelude.{◌≡◌, ◌<◌};

use crate::interface::NoValue;

// A number below `BOUND`.
#[derive(Clone, Copy, Debug, PartialEq, Eq, PartialOrd, Ord, Hash)]
pub struct Below<const BOUND: u32> {
    pub number: u32,
    ghost within: { number < BOUND },
}

impl<const BOUND: u32> Below<BOUND> {
    ghost use Rattle.algebra.specs.Below.{below_code, below_value};

    // Its own code, and none for 0.
    pub fn own_code(self) -> Option<u32>
        ensures { result ≡ below_code BOUND self.entry }
    {
        match self.number {
            0 => None,
            number => Some(number),
        }
    }

    // The number that is its own code, which 0 is not.
    pub fn with_own_code(code: u32) -> Result<Self, NoValue>
        ensures { result ≡ below_value BOUND code }
    {
        match code {
            0 => Err(NoValue),
            number => Below::try_from(number),
        }
    }
}

impl<const BOUND: u32> TryFrom<u32> for Below<BOUND> {
    ghost use Rattle.algebra.specs.Below.{Numbered};

    type Error = NoValue;

    ghost try_from_gives = { Numbered BOUND };

    fn try_from(number: u32) -> Result<Self, NoValue> {
        if number < BOUND {
            Ok(Below { number })
        } else {
            Err(NoValue)
        }
    }
}
