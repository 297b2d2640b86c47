// Weighs a short text without tags, step by step, under the score algebra and again under count.
#![tactic(auto)]

mod sheet;
mod show;
mod stop;
mod weigh;

use algebra::interface::Algebra;
use count::Count;
use score::Score;
use sheet::{FINISH, START, Sheet, build};
use show::Line;
use std::io;
use stop::Stop;
use weigh::weigh;

const TEXT: &str = "ab 7";

fn report<A: Algebra>(rt: &impl Print, name: &str, sheet: &Sheet<A::Value>) -> io::Result<()> {
    println!(rt; "algebra {name}")?;
    let weight = weigh::<A>(rt, sheet, TEXT.as_bytes())?;
    println!(rt; "start:{}", Line(&START))?;
    println!(rt; "finish:{}", Line(&FINISH))?;
    println!(rt; "weight:{}", Line(&[A::code(weight)]))
}

fn main(rt: HostRuntime) -> Result<(), Stop> {
    println!(rt; "text {TEXT}")?;
    // Sheets are made here, where the types are known: the size of an array of weights is unbounded in generic code.
    report::<Score>(&rt, "score", &build::<Score>()?)?;
    report::<Count>(&rt, "count", &build::<Count>()?)?;
    Ok(())
}
