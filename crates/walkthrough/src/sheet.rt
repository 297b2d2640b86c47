// A sheet of two states for texts without tags.
use algebra::interface::{Algebra, NoValue, weight};
use nested::token::Class;

#[derive(Drop)]
pub struct Sheet<V: Copy> {
    pub start: [V; 2],
    pub finish: [V; 2],
    pub space: [V; 4],
    pub digit: [V; 4],
    pub other: [V; 4],
}

impl<V: Copy> Sheet<V> {
    ghost use Rattle.std.specs.Prelude.{◌≡◌};
    ghost use Rattle.walkthrough.specs.Weight.{class_entries};

    pub fn table(&self, class: Class) -> &[V; 4]
        ensures { result.now ≡ class_entries self.now class }
    {
        match class {
            Class::Space => &self.space,
            Class::Digit => &self.digit,
            Class::Other => &self.other,
        }
    }
}

fn weights<A: Algebra, const N: usize>(codes: &[Option<u32>; N]) -> Result<[A::Value; N], NoValue> {
    let mut out = [A::zero(); N];
    for (value, code) in out.iter_mut().zip(codes) {
        *value = weight::<A>(*code)?;
    }
    Ok(out)
}

pub const START: [Option<u32>; 2] = [Some(1), None];

pub const FINISH: [Option<u32>; 2] = [Some(1), Some(2)];

// State 0 is outside a word and state 1 inside one; a digit may be read either way.
pub fn build<A: Algebra>() -> Result<Sheet<A::Value>, NoValue> {
    Ok(Sheet {
        start: weights::<A, _>(&START)?,
        finish: weights::<A, _>(&FINISH)?,
        space: weights::<A, _>(&[Some(1), None, Some(2), None])?,
        digit: weights::<A, _>(&[Some(1), Some(2), None, Some(3)])?,
        other: weights::<A, _>(&[None, Some(2), None, Some(1)])?,
    })
}
