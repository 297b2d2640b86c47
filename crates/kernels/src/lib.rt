// The inner loops over square tables of weights, for slices that are known to fit. All memory is lent.
// A view of a slice with its size would ask that the sizes of two views agree where a clause now asks for a length.
#![tactic(auto)]

ghost use Rattle.std.specs.Prelude.{◌≡◌, ℕ, ◌+◌, ◌*◌, ◌<◌, length, slice_index_or};
ghost use Rattle.kernels.specs.Entries.{Long, SlicesHoldTables, identity_entries, sum_entries, product_entries, value_between, row_by_column};

use algebra::interface::Semiring;

// The row times the column of `ys` that begins at `offset` and goes on by `stride`.
pub fn dot<S: Semiring>(xs: &[S::Value], ys: &[S::Value], offset: usize, stride: usize) -> S::Value
    requires { (r : ℕ) → r < length xs.now → offset + r * stride < length ys.now }
    ensures { result ≡ row_by_column S.ops xs.now ys.now offset stride (length xs.now) }
{
    let mut total = S::zero();
    // `ys` by index: `step_by` asks for a stride above 0 and an offset within `ys`, which no caller has had to show.
    for (r, x) in xs.iter().enumerate() {
        total = S::plus(total, S::times(*x, ys[offset + r * stride]));
    }
    total
}

#[tactic(auto, using(crate::proofs::Loops::sum_made))]
pub fn sum<S: Semiring>(n: usize, x: &[S::Value], y: &[S::Value], out: &mut [S::Value])
    requires left { Long (n * n) x.now }
    requires right { Long (n * n) y.now }
    requires room { Long (n * n) out.old }
    ensures { out.new ≡ sum_entries S.ops n x.now y.now }
{
    // One pass, `x` and `y` by index as in `add`: to copy `x` and add `y` to it takes longer.
    for (i, entry) in out.iter_mut().enumerate() {
        *entry = S::plus(x[i], y[i]);
    }
}

// Adds x to what out holds.
#[tactic(auto, using(crate::proofs::Loops::sum_made))]
pub fn add<S: Semiring>(n: usize, x: &[S::Value], out: &mut [S::Value])
    requires table { Long (n * n) x.now }
    requires room { Long (n * n) out.old }
    ensures { out.new ≡ sum_entries S.ops n out.old x.now }
{
    // `x` by index: what is written through a zip over `iter_mut` is not known afterwards.
    for (i, entry) in out.iter_mut().enumerate() {
        *entry = S::plus(*entry, x[i]);
    }
}

// Writes f(p, q) into row p and column q.
fn fill<V: Copy, F: Fn(usize, usize) -> V>(n: usize, out: &mut [V], f: F)
    requires room { Long (n * n) out.old }
    requires callable { (p q : ℕ) → p < n → q < n → F.pre f p q }
    ensures { (beyond : V) (p q : ℕ) → p < n → q < n → F.post f p q (slice_index_or out.new (p * n + q) beyond) }
{
    // By index: `chunks_mut` asks for n > 0, and what is written through it is not known afterwards; one index would be divided by n.
    for p in 0..n {
        let row = p * n;
        for q in 0..n {
            out[row + q] = f(p, q);
        }
    }
}

pub fn product<S: Semiring>(n: usize, x: &[S::Value], y: &[S::Value], out: &mut [S::Value])
    requires left { Long (n * n) x.now }
    requires right { Long (n * n) y.now }
    requires room { Long (n * n) out.old }
    ensures { out.new ≡ product_entries S.ops n x.now y.now }
{
    // The row by index, as in `value`.
    fill(n, out, |p, q| {
        let at = p * n;
        dot::<S>(&x[at..at + n], y, q, n)
    });
}

pub fn identity<S: Semiring>(n: usize, out: &mut [S::Value])
    requires room { Long (n * n) out.old }
    ensures { out.new ≡ identity_entries S.ops n }
{
    fill(n, out, |p, q| if p == q { S::one() } else { S::zero() });
}

pub fn value<S: Semiring>(
    n: usize,
    start: &[S::Value],
    table: &[S::Value],
    finish: &[S::Value],
) -> S::Value
    requires first { Long n start.now }
    requires middle { Long (n * n) table.now }
    requires last { Long n finish.now }
    ensures { result ≡ value_between S.ops n start.now table.now finish.now }
{
    let mut total = S::zero();
    // Rows by index: `chunks_exact` asks for n > 0, and over a zip an invariant speaks of all that was yielded. `start` by index
    // too: over its iterator, scores took up to a half longer.
    for p in 0..n {
        let at = p * n;
        let rest = dot::<S>(&table[at..at + n], finish, 0, 1);
        total = S::plus(total, S::times(start[p], rest));
    }
    total
}

// A theorem, as the contract of a function that does nothing.
#[tactic(auto, using(crate::proofs::Loops::held))]
pub fn slices_hold_tables<S: Semiring>(n: usize)
    ensures { SlicesHoldTables S.ops n }
{}
