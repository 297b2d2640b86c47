// Tables of weights at places of one lent slice, for places that are known to fit. The slice is lent to each call anew:
// a struct that held it would have to say in each clause that it still holds the same one.
#![tactic(auto)]

ghost use Rattle.std.specs.Prelude.{◌≡◌, ◌+◌, ◌*◌, ◌≤◌, ◌++◌, List, length, slice_range};
ghost use Rattle.algebra.specs.Tables.{table_zero, table_one, table_plus, table_times};
ghost use Rattle.places.specs.Places.{table_in, Kept, Fits, Apart};

use algebra::interface::Semiring;

// The `size` entries from x on, in a list of which `size` entries between these two parts are lent out.
fn stretch<'a, V>(before: &'a [V], behind: &'a [V], size: usize, x: usize) -> &'a [V]
    requires fits { x + size ≤ length before.now + size + length behind.now }
    requires apart { Apart x size (length before.now) size }
    ensures { (room : List V) → length room ≡ size
        → result.now ≡ slice_range (before.now ++ (room ++ behind.now)) x (x + size) }
{
    if x < before.len() {
        &before[x..x + size]
    } else {
        let at = x - before.len() - size;
        &behind[at..at + size]
    }
}

// Writes the product of the tables at x and at y.
#[tactic(auto, using(std::proofs::lemmas::List::places, crate::proofs::Frames::product_between))]
pub fn product<S: Semiring>(n: usize, w: &mut [S::Value], x: usize, y: usize, out: usize)
    requires left { Fits x (n * n) w.old }
    requires right { Fits y (n * n) w.old }
    requires room { Fits out (n * n) w.old }
    requires apart { Apart x (n * n) out (n * n) × Apart y (n * n) out (n * n) }
    ensures made { table_in S.ops n w.new out
        ≡ table_times S.ops (table_in S.ops n w.old x) (table_in S.ops n w.old y) }
    ensures kept { Kept S.ops out (n * n) w.old w.new }
{
    let size = n * n;
    let (before, rest) = w.split_at_mut(out);
    let (room, behind) = rest.split_at_mut(size);
    let left = stretch(before, behind, size, x);
    let right = stretch(before, behind, size, y);
    kernels::product::<S>(n, left, right, room);
}

// Adds the table at x to the one at out.
#[tactic(auto, using(std::proofs::lemmas::List::places, crate::proofs::Frames::sum_between))]
pub fn add<S: Semiring>(n: usize, w: &mut [S::Value], x: usize, out: usize)
    requires table { Fits x (n * n) w.old }
    requires room { Fits out (n * n) w.old }
    requires apart { Apart x (n * n) out (n * n) }
    ensures made { table_in S.ops n w.new out
        ≡ table_plus S.ops (table_in S.ops n w.old out) (table_in S.ops n w.old x) }
    ensures kept { Kept S.ops out (n * n) w.old w.new }
{
    // Lent apart as in `product`: a function that did so would need a clause on how the three parts come back.
    let (before, rest) = w.split_at_mut(out);
    let (room, behind) = rest.split_at_mut(n * n);
    kernels::add::<S>(n, stretch(before, behind, n * n, x), room);
}

// Writes the table at x once more.
pub fn copy<S: Semiring>(n: usize, w: &mut [S::Value], x: usize, out: usize)
    requires table { Fits x (n * n) w.old }
    requires room { Fits out (n * n) w.old }
    ensures made { table_in S.ops n w.new out ≡ table_in S.ops n w.old x }
    ensures kept { Kept S.ops out (n * n) w.old w.new }
{
    w.copy_within(x..x + n * n, out);
}

// Writes the table of zeros.
pub fn clear<S: Semiring>(n: usize, w: &mut [S::Value], out: usize)
    requires room { Fits out (n * n) w.old }
    ensures made { table_in S.ops n w.new out ≡ table_zero S.ops n }
    ensures kept { Kept S.ops out (n * n) w.old w.new }
{
    w[out..out + n * n].fill_with(|| S::zero());
}

// Writes the identity.
pub fn identity<S: Semiring>(n: usize, w: &mut [S::Value], out: usize)
    requires room { Fits out (n * n) w.old }
    ensures made { table_in S.ops n w.new out ≡ table_one S.ops n }
    ensures kept { Kept S.ops out (n * n) w.old w.new }
{
    kernels::identity::<S>(n, &mut w[out..out + n * n]);
}
