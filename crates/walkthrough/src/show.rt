// How weights are printed: by their codes.
ghost use Rattle.std.specs.Prelude.{◌≡◌, map};

use algebra::interface::Algebra;
use std::fmt;

// The codes of a table of two states.
pub fn codes<A: Algebra>(table: &[A::Value; 4]) -> [Option<u32>; 4]
    ensures { result ≡ map A.codes.code table.now }
{
    // `table.map(|w| A::code(w))` leaves it unproved that the entries have a size, and `A::code` as a function is not covered.
    let [a, b, c, d] = *table;
    [A::code(a), A::code(b), A::code(c), A::code(d)]
}

// Codes as they are printed, `none` for zero.
#[derive(Clone, Copy)]
pub struct Line<'a>(pub &'a [Option<u32>]);

impl fmt::Display for Line<'_> {
    fn fmt<W: fmt::Write>(&self, f: &mut fmt::Formatter<W>) -> fmt::Result {
        for code in self.0 {
            match code {
                Some(c) => write!(f, " {c}")?,
                None => write!(f, " none")?,
            }
        }
        Ok(())
    }
}
