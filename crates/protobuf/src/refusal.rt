// The refusals of document 01's table, in its order, each with its number there; `specs/Refusal.antt` says the same.
ghost use Rattle.std.specs.Prelude.{◌≡◌};
ghost use Rattle.protobuf.specs.Refusal.{number};

#[derive(Clone, Copy, Debug, PartialEq, Eq, Hash)]
pub enum Refusal {
    BlockTooLong = 1,
    VarintCut = 2,
    VarintLong = 3,
    TagValue = 4,
    WireType = 5,
    PastEnd = 6,
    GroupDepth = 7,
    Granularity = 8,
    SecondColumn = 9,
    SecondInfo = 10,
    SecondDense = 11,
    Counts = 12,
    NoRoom = 13,
    Outside = 14,
}

// The refusal's number in the table.
impl From<Refusal> for u32 {
    ghost from_gives = { λ r n. n ≡ number r };

    fn from(r: Refusal) -> u32 {
        r as u32
    }
}
