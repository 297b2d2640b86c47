// Score: none, or points up to a cap. The sum is the better of two, the product adds.
#![tactic(auto)]

ghost use Rattle.std.specs.Prelude.{refl};
ghost use Rattle.score.specs.Score.{scores, score_codes};
ghost use Rattle.score.specs.Scores.{score_laws, score_coded};

use algebra::below::Below;
use algebra::interface::{Algebra, NoValue, Semiring};

const MOST: u32 = 1_000_000_000;

const BEYOND: u32 = MOST + 1;

pub type Points = Below<BEYOND>;

pub struct Score;

impl Semiring for Score {
    type Value = Option<Points>;

    ghost ops = { scores };

    ghost lawful = { score_laws };

    fn zero() -> Option<Points> {
        None
    }

    fn one() -> Option<Points> {
        Some(Below { number: 0 })
    }

    // `a.max(b)` is the same, and takes twice the time in a sum of products; a match on both takes up to a half more.
    fn plus(a: Option<Points>, b: Option<Points>) -> Option<Points> {
        let Some(x) = a else {
            return b;
        };
        let Some(y) = b else {
            return a;
        };
        if x.number < y.number { b } else { a }
    }

    fn times(a: Option<Points>, b: Option<Points>) -> Option<Points> {
        let x = a?;
        let y = b?;
        Some(Below {
            number: (x.number + y.number).min(MOST),
        })
    }
}

impl Algebra for Score {
    const NUMBER: u8 = 2;

    const WIDTH: usize = 4;

    ghost NUMBER = { score_codes.number };

    ghost WIDTH = { score_codes.width };

    ghost codes = { score_codes };

    ghost published = { (refl, refl) };

    ghost coded = { score_coded };

    fn code(value: Option<Points>) -> Option<u32> {
        value.map(|points| points.number)
    }

    fn value(code: u32) -> Result<Option<Points>, NoValue> {
        Ok(Some(Below::try_from(code)?))
    }
}
