// Relations on the three directions.
ghost use Rattle.std.specs.Prelude.{◌<◌};

// A set of pairs (i, j) of the directions 0, 1 and 2: bit 3 i + j says that the pair is in it. Two bytes, since weights stand in lent
// memory; a `Below<512>` takes four.
#[derive(Clone, Copy, Debug, PartialEq, Eq, PartialOrd, Ord, Hash)]
pub struct Relation {
    pub bits: u16,
    ghost nine: { bits < 512 },
}
