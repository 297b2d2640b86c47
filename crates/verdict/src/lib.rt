// Verdict: no or yes.
#![tactic(auto)]

ghost use Rattle.std.specs.Prelude.{refl};
ghost use Rattle.verdict.specs.Verdict.{verdicts, verdict_codes};
ghost use Rattle.verdict.specs.Verdicts.{verdict_laws};
ghost use Rattle.std.proofs.Common.{rules};

use algebra::interface::{Algebra, NoValue, Semiring};

pub struct Verdict;

impl Semiring for Verdict {
    type Value = bool;

    ghost ops = { verdicts };

    ghost lawful = { verdict_laws };

    fn zero() -> bool {
        false
    }

    fn one() -> bool {
        true
    }

    fn plus(a: bool, b: bool) -> bool {
        a || b
    }

    fn times(a: bool, b: bool) -> bool {
        a && b
    }
}

impl Algebra for Verdict {
    const NUMBER: u8 = 1;

    const WIDTH: usize = 1;

    ghost NUMBER = { verdict_codes.number };

    ghost WIDTH = { verdict_codes.width };

    ghost codes = { verdict_codes };

    ghost published = { (refl, refl) };

    ghost coded = { Prim.search rules };

    fn code(value: bool) -> Option<u32> {
        value.then_some(1)
    }

    fn value(code: u32) -> Result<bool, NoValue> {
        match code {
            1 => Ok(true),
            _ => Err(NoValue),
        }
    }
}
