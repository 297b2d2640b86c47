// The 2 by 2 matrices of bits, a and b in the first row.
#[derive(Clone, Copy)]
pub struct Matrix {
    pub a: bool,
    pub b: bool,
    pub c: bool,
    pub d: bool,
}
