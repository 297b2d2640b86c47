// The weight of a text, table by table. All tables here are of two states, so no call on them refuses.
ghost use Rattle.std.specs.Prelude.{◌≡◌, IfOk};
ghost use Rattle.kernels.specs.Entries.{product_entries};
ghost use Rattle.walkthrough.specs.Weight.{plain_weight};

use crate::sheet::Sheet;
use crate::show::{Line, codes};
use algebra::interface::{Algebra, Semiring};
use nested::token::Class;
use std::io;

fn product<S: Semiring>(x: &[S::Value; 4], y: &[S::Value; 4]) -> [S::Value; 4]
    ensures { result ≡ product_entries S.ops 2 x.now y.now }
{
    let mut out = [S::zero(); 4];
    tables::product::<S>(2, x, y, &mut out).unwrap();
    out
}

pub fn weigh<A: Algebra>(
    rt: &impl Print,
    sheet: &Sheet<A::Value>,
    text: &[u8],
) -> io::Result<A::Value>
    ensures { IfOk result (λ w. w ≡ plain_weight A.ops sheet.now text.now) }
{
    let mut running = [A::zero(); 4];
    tables::identity::<A>(2, &mut running).unwrap();
    println!(rt; "identity:{}", Line(&codes::<A>(&running)))?;
    for (place, &byte) in text.iter().enumerate() {
        let class = Class::from(byte);
        let table = sheet.table(class);
        running = product::<A>(&running, table);
        println!(rt; "place {place} class {}", u8::from(class))?;
        println!(rt; "  times:{}", Line(&codes::<A>(table)))?;
        println!(rt; "  gives:{}", Line(&codes::<A>(&running)))?;
    }
    Ok(tables::value::<A>(2, &sheet.start, &running, &sheet.finish).unwrap())
}
