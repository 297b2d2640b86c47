// 2 by 2 matrices over the field of two elements.
ghost use Rattle.std.specs.Prelude.{refl};
ghost use Rattle.bureau.specs.Matrices.{matrices, matrix_codes};
ghost use Rattle.bureau.specs.MatrixLaws.{matrix_laws, matrix_coded};

use crate::matrix::Matrix;
use algebra::below::Below;
use algebra::interface::{Algebra, NoValue, Semiring};

// there are so many matrices of four bits
const MATRICES: u32 = 16;

pub struct Matrices;

impl Semiring for Matrices {
    type Value = Matrix;

    ghost ops = { matrices };

    ghost lawful = { matrix_laws };

    fn zero() -> Matrix {
        Matrix {
            a: false,
            b: false,
            c: false,
            d: false,
        }
    }

    fn one() -> Matrix {
        Matrix {
            a: true,
            b: false,
            c: false,
            d: true,
        }
    }

    fn plus(x: Matrix, y: Matrix) -> Matrix {
        Matrix {
            a: x.a ^ y.a,
            b: x.b ^ y.b,
            c: x.c ^ y.c,
            d: x.d ^ y.d,
        }
    }

    fn times(x: Matrix, y: Matrix) -> Matrix {
        Matrix {
            a: (x.a & y.a) ^ (x.b & y.c),
            b: (x.a & y.b) ^ (x.b & y.d),
            c: (x.c & y.a) ^ (x.d & y.c),
            d: (x.c & y.b) ^ (x.d & y.d),
        }
    }
}

impl Algebra for Matrices {
    const NUMBER: u8 = 200;

    const WIDTH: usize = 1;

    ghost NUMBER = { matrix_codes.number };

    ghost WIDTH = { matrix_codes.width };

    ghost codes = { matrix_codes };

    ghost published = { (refl, refl) };

    ghost coded = { matrix_coded };

    // `code` and `value` are the conversions, and nothing else needs one.
    fn code(value: Matrix) -> Option<u32> {
        let [a, b, c, d] = [value.a, value.b, value.c, value.d].map(u32::from);
        Below::<MATRICES> {
            number: a + 2 * b + 4 * c + 8 * d,
        }
        .own_code()
    }

    fn value(code: u32) -> Result<Matrix, NoValue> {
        let number = Below::<MATRICES>::with_own_code(code)?.number;
        Ok(Matrix {
            a: number % 2 == 1,
            b: number / 2 % 2 == 1,
            c: number / 4 % 2 == 1,
            d: number / 8 % 2 == 1,
        })
    }
}
