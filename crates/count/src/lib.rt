// Count: numbers modulo a prime, for the number of a text's runs.
#![tactic(auto)]

ghost use Rattle.std.specs.Prelude.{refl};
ghost use Rattle.count.specs.Count.{counts, count_codes};
ghost use Rattle.count.specs.Counts.{count_laws, count_coded};

use algebra::below::Below;
use algebra::interface::{Algebra, NoValue, Semiring};

const MODULUS: u32 = 65_521;

pub type Residue = Below<MODULUS>;

pub struct Count;

impl Semiring for Count {
    type Value = Residue;

    ghost ops = { counts };

    ghost lawful = { count_laws };

    fn zero() -> Residue {
        Below { number: 0 }
    }

    fn one() -> Residue {
        Below { number: 1 }
    }

    fn plus(a: Residue, b: Residue) -> Residue {
        Below {
            number: (a.number + b.number) % MODULUS,
        }
    }

    fn times(a: Residue, b: Residue) -> Residue {
        Below {
            number: a.number * b.number % MODULUS,
        }
    }
}

impl Algebra for Count {
    const NUMBER: u8 = 3;

    const WIDTH: usize = 4;

    ghost NUMBER = { count_codes.number };

    ghost WIDTH = { count_codes.width };

    ghost codes = { count_codes };

    ghost published = { (refl, refl) };

    ghost coded = { count_coded };

    fn code(value: Residue) -> Option<u32> {
        value.own_code()
    }

    fn value(code: u32) -> Result<Residue, NoValue> {
        Below::with_own_code(code)
    }
}
