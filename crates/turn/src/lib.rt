// Turn: relations on three directions, under union and composition.
#![tactic(auto)]

ghost use Rattle.std.specs.Prelude.{◌≡◌, [], ◌∷◌, refl};
ghost use Rattle.algebra.specs.Bits.{bits, number};
ghost use Rattle.turn.specs.Turn.{turns, turn_codes, crossed};
ghost use Rattle.turn.specs.Turns.{turn_laws, turn_coded};

pub mod relation;

pub use crate::relation::Relation;
use algebra::below::Below;
use algebra::interface::{Algebra, NoValue, Semiring};

pub struct Turn;

// there are so many sets of the nine pairs
const SETS: u32 = 512;

// The pairs (i, j) with bit 3 i in `column` and bit j in `row`: the row, once for each i.
#[tactic(auto, using(crate::specs::Turns::crossing))]
fn cross(column: u16, row: u16) -> u16
    ensures { result ≡ number (crossed (bits 7 column) (bits 3 row)) }
{
    (column & 0b001_001_001) * (row & 0b111)
}

impl Semiring for Turn {
    type Value = Relation;

    ghost ops = { turns };

    ghost lawful = { turn_laws };

    fn zero() -> Relation {
        Relation { bits: 0 }
    }

    fn one() -> Relation {
        Relation {
            bits: 0b100_010_001,
        }
    }

    fn plus(a: Relation, b: Relation) -> Relation {
        Relation {
            bits: a.bits | b.bits,
        }
    }

    // the pairs by way of 0, of 1 and of 2
    fn times(a: Relation, b: Relation) -> Relation {
        let by_0 = cross(a.bits, b.bits);
        let by_1 = cross(a.bits >> 1, b.bits >> 3);
        let by_2 = cross(a.bits >> 2, b.bits >> 6);
        Relation {
            bits: by_0 | by_1 | by_2,
        }
    }
}

impl Algebra for Turn {
    const NUMBER: u8 = 4;

    const WIDTH: usize = 2;

    ghost NUMBER = { turn_codes.number };

    ghost WIDTH = { turn_codes.width };

    ghost codes = { turn_codes };

    ghost published = { (refl, refl) };

    ghost coded = { turn_coded };

    fn code(value: Relation) -> Option<u32> {
        let number = u32::from(value.bits);
        Below::<SETS> { number }.own_code()
    }

    fn value(code: u32) -> Result<Relation, NoValue> {
        let number = Below::<SETS>::with_own_code(code)?.number;
        Ok(Relation {
            bits: number as u16,
        })
    }
}
