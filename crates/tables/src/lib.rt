// Square tables of weights in lent slices, row by row. Users call these, so each call tests the slices that it is given, and no type
// holds the test.
#![tactic(auto)]

ghost use Rattle.std.specs.Prelude.{◌≡◌, ℕ, ◌*◌, length};
ghost use Rattle.kernels.specs.Entries.{Long, identity_entries, sum_entries, product_entries, value_between};
ghost use Rattle.tables.specs.Answers.{Tested, Written, Answered};
ghost use Rattle.tables.specs.Sizes.{Size, Square};

use algebra::interface::Semiring;
use thiserror::Error;

// The refusal of a size that is not from one to four, or of a slice of another length.
#[derive(Clone, Copy, Debug, PartialEq, Eq, Error)]
#[error("a size that is not from one to four, or a slice of another length")]
pub struct Misfit;

fn test_table(n: usize, entries: usize) -> Result<(), Misfit>
    ensures { Tested (Size n × (entries ≡ n * n)) result }
{
    if 1 <= n && n <= 4 && entries == n * n {
        Ok(())
    } else {
        Err(Misfit)
    }
}

// Writes x + y.
pub fn sum<S: Semiring>(
    n: usize,
    x: &[S::Value],
    y: &[S::Value],
    out: &mut [S::Value],
) -> Result<(), Misfit>
    ensures { Written (Square n x.now × Square n y.now × Square n out.old)
        (sum_entries S.ops n x.now y.now) out.old result out.new }
{
    test_table(n, x.len())?;
    test_table(n, y.len())?;
    test_table(n, out.len())?;
    kernels::sum::<S>(n, x, y, out);
    Ok(())
}

// Writes x · y. As `sum` but for the kernel: to take that as a closure, a clause would have to say what it writes to `out`.
pub fn product<S: Semiring>(
    n: usize,
    x: &[S::Value],
    y: &[S::Value],
    out: &mut [S::Value],
) -> Result<(), Misfit>
    ensures { Written (Square n x.now × Square n y.now × Square n out.old)
        (product_entries S.ops n x.now y.now) out.old result out.new }
{
    test_table(n, x.len())?;
    test_table(n, y.len())?;
    test_table(n, out.len())?;
    kernels::product::<S>(n, x, y, out);
    Ok(())
}

// Writes the table with one on the diagonal and zero elsewhere.
pub fn identity<S: Semiring>(n: usize, out: &mut [S::Value]) -> Result<(), Misfit>
    ensures { Written (Square n out.old) (identity_entries S.ops n) out.old result out.new }
{
    test_table(n, out.len())?;
    kernels::identity::<S>(n, out);
    Ok(())
}

// The sum over all p and q of start(p) · table(p, q) · finish(q).
pub fn value<S: Semiring>(
    n: usize,
    start: &[S::Value],
    table: &[S::Value],
    finish: &[S::Value],
) -> Result<S::Value, Misfit>
    ensures { Answered (Long n start.now × Square n table.now × Long n finish.now)
        (value_between S.ops n start.now table.now finish.now) result }
{
    test_table(n, table.len())?;
    if start.len() != n || finish.len() != n {
        return Err(Misfit);
    }
    Ok(kernels::value::<S>(n, start, table, finish))
}
