// Sums, products and codes of each algebra, by tables of codes; none is zero.
use algebra::interface::{Algebra, Semiring, weight};
use bureau::matrices::Matrices;
use bureau::trivial::Trivial;
use count::Count;
use score::Score;
use std::process::Abort;
use std::test::Fail;
use turn::Turn;
use verdict::Verdict;

// Two codes, and the codes of the sum and of the product.
struct Row(Option<u32>, Option<u32>, Option<u32>, Option<u32>);

const ZERO: Option<u32> = None;

const MOST: u32 = 1_000_000_000;

fn calculates<A: Algebra>(rt: &impl Abort, rows: &[Row]) -> Result<(), Fail> {
    for Row(a, b, sum, product) in rows {
        let x = weight::<A>(*a)?;
        let y = weight::<A>(*b)?;
        assert!(rt; A::code(A::plus(x, y)) == *sum);
        assert!(rt; A::code(A::times(x, y)) == *product);
    }
    Ok(())
}

// Each of these codes has a value, whose code it is; and of `EDGES` so many have one.
fn has_values<A: Algebra>(rt: &impl Abort, codes: &[u32], among_edges: usize) -> Result<(), Fail> {
    for c in codes {
        assert!(rt; A::code(A::value(*c)?) == Some(*c));
    }
    let found = EDGES.iter().filter(|&&c| A::value(c).is_ok()).count();
    assert!(rt; found == among_edges);
    Ok(())
}

const VERDICTS: [Row; 4] = [
    Row(ZERO, ZERO, ZERO, ZERO),
    Row(Some(1), ZERO, Some(1), ZERO),
    Row(ZERO, Some(1), Some(1), ZERO),
    Row(Some(1), Some(1), Some(1), Some(1)),
];

const SCORES: [Row; 7] = [
    Row(ZERO, ZERO, ZERO, ZERO),
    Row(Some(0), ZERO, Some(0), ZERO),
    Row(ZERO, Some(7), Some(7), ZERO),
    Row(Some(0), Some(7), Some(7), Some(7)),
    Row(Some(9), Some(7), Some(9), Some(16)),
    Row(Some(999_999_999), Some(5), Some(999_999_999), Some(MOST)),
    Row(Some(MOST), Some(MOST), Some(MOST), Some(MOST)),
];

const COUNTS: [Row; 6] = [
    Row(ZERO, ZERO, ZERO, ZERO),
    Row(Some(1), ZERO, Some(1), ZERO),
    Row(Some(2), Some(3), Some(5), Some(6)),
    Row(Some(65_520), Some(1), ZERO, Some(65_520)),
    Row(Some(65_520), Some(2), Some(1), Some(65_519)),
    Row(Some(65_520), Some(65_520), Some(65_519), Some(1)),
];

const TURNS: [Row; 8] = [
    Row(ZERO, Some(273), Some(273), ZERO),
    Row(Some(273), Some(91), Some(347), Some(91)),
    Row(Some(91), Some(273), Some(347), Some(91)),
    Row(Some(2), Some(32), Some(34), Some(4)),
    Row(Some(32), Some(2), Some(34), ZERO),
    Row(Some(511), Some(511), Some(511), Some(511)),
    Row(Some(73), Some(7), Some(79), Some(511)),
    Row(Some(7), Some(73), Some(79), Some(1)),
];

// 2 is its own zero divisor, and 2 and 4 do not commute
const MATRICES: [Row; 4] = [
    Row(Some(9), Some(6), Some(15), Some(6)),
    Row(Some(2), Some(2), ZERO, ZERO),
    Row(Some(2), Some(4), Some(6), Some(1)),
    Row(Some(4), Some(2), Some(6), Some(8)),
];

const TRIVIAL: [Row; 1] = [Row(ZERO, ZERO, ZERO, ZERO)];

const EDGES: [u32; 11] = [
    0,
    1,
    255,
    511,
    512,
    65_520,
    65_521,
    65_535,
    MOST,
    MOST + 1,
    u32::MAX,
];

#[test]
fn sums_and_products(rt: HostRuntime) -> Result<(), Fail> {
    calculates::<Verdict>(&rt, &VERDICTS)?;
    calculates::<Score>(&rt, &SCORES)?;
    calculates::<Count>(&rt, &COUNTS)?;
    calculates::<Turn>(&rt, &TURNS)?;
    calculates::<Matrices>(&rt, &MATRICES)?;
    calculates::<Trivial>(&rt, &TRIVIAL)
}

#[test]
fn codes_at_their_edges(rt: HostRuntime) -> Result<(), Fail> {
    has_values::<Verdict>(&rt, &[1], 1)?;
    has_values::<Score>(&rt, &[0, 1, 511, 512, 65_520, 65_521, MOST], 9)?;
    has_values::<Count>(&rt, &[1, 511, 512, 65_520], 5)?;
    has_values::<Turn>(&rt, &[1, 511], 3)?;
    has_values::<Matrices>(&rt, &[1, 15], 1)?;
    has_values::<Trivial>(&rt, &[], 0)
}

#[test]
fn numbers_and_widths(rt: HostRuntime) {
    assert!(rt; Verdict::NUMBER == 1 && Verdict::WIDTH == 1);
    assert!(rt; Score::NUMBER == 2 && Score::WIDTH == 4);
    assert!(rt; Count::NUMBER == 3 && Count::WIDTH == 4);
    assert!(rt; Turn::NUMBER == 4 && Turn::WIDTH == 2);
}

#[test]
fn tables_of_a_bureaus_own(rt: HostRuntime) -> Result<(), Fail> {
    let x = [Matrices::value(2)?];
    let y = [Matrices::value(4)?];
    let mut out = [Matrices::zero()];
    assert!(rt; tables::product::<Matrices>(1, &x, &y, &mut out).is_ok());
    assert!(rt; Matrices::code(out[0]) == Some(1));
    assert!(rt; tables::product::<Matrices>(2, &y, &x, &mut out).is_err());
    assert!(rt; Matrices::code(out[0]) == Some(1));
    Ok(())
}
