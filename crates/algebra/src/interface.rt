// What a weight algebra has and owes.
ghost use Rattle.std.specs.Prelude.{◌≡◌, ℕ};
ghost use Rattle.algebra.specs.Semiring.{Ops, Laws};
ghost use Rattle.algebra.specs.Codes.{Codes, Coded, weight_of};

use thiserror::Error;

// Values that can be added and multiplied. The product need not commute, and zero may be one.
pub trait Semiring {
    type Value: Copy;

    ghost ops: { Ops Self.Value };

    fn zero() -> Self::Value
        ensures { result ≡ ops.zero };

    fn one() -> Self::Value
        ensures { result ≡ ops.one };

    fn plus(a: Self::Value, b: Self::Value) -> Self::Value
        ensures { result ≡ ops.plus a b };

    fn times(a: Self::Value, b: Self::Value) -> Self::Value
        ensures { result ≡ ops.times a b };

    ghost lawful: { Laws ops };
}

// The refusal of a code that no value has.
#[derive(Clone, Copy, Debug, PartialEq, Eq, Error)]
#[error("no value has this code")]
pub struct NoValue;

// A weight algebra: a semiring whose values, but for zero, have codes.
pub trait Algebra: Semiring {
    // the byte by which sheets and records name the algebra: a bureau picks its own, so no enum lists them
    const NUMBER: u8;

    // the bytes of a code
    const WIDTH: usize;

    ghost NUMBER: { ℕ };

    ghost WIDTH: { ℕ };

    ghost codes: { Codes Self.Value };

    fn code(value: Self::Value) -> Option<u32>
        ensures { result ≡ codes.code value };

    fn value(code: u32) -> Result<Self::Value, NoValue>
        ensures { result ≡ codes.value code };

    ghost published: { (NUMBER ≡ codes.number) × (WIDTH ≡ codes.width) };

    ghost coded: { Coded Self.ops.zero codes };
}

// The value with this code, or zero for none.
pub fn weight<A: Algebra>(code: Option<u32>) -> Result<A::Value, NoValue>
    ensures { result ≡ weight_of A.ops.zero A.codes code }
{
    code.map_or(Ok(A::zero()), |code| A::value(code))
}
