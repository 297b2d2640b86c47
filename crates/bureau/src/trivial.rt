// The trivial algebra, where zero is one.
ghost use Rattle.std.specs.Prelude.{refl};
ghost use Rattle.bureau.specs.Trivial.{trivial_ops, trivial_codes};
ghost use Rattle.std.proofs.Common.{rules};

use algebra::interface::{Algebra, NoValue, Semiring};

pub struct Trivial;

impl Semiring for Trivial {
    type Value = ();

    ghost ops = { trivial_ops };

    ghost lawful = { Prim.search rules };

    fn zero() {}

    fn one() {}

    fn plus(_a: (), _b: ()) {}

    fn times(_a: (), _b: ()) {}
}

impl Algebra for Trivial {
    const NUMBER: u8 = 201;

    const WIDTH: usize = 1;

    ghost NUMBER = { trivial_codes.number };

    ghost WIDTH = { trivial_codes.width };

    ghost codes = { trivial_codes };

    ghost published = { (refl, refl) };

    ghost coded = { Prim.search rules };

    fn code(_value: ()) -> Option<u32> {
        None
    }

    fn value(_code: u32) -> Result<(), NoValue> {
        Err(NoValue)
    }
}
