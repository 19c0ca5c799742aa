// Why a request is refused: one case for each number that users see.
#![tactic(auto)]

ghost use Rattle.std.specs.Prelude.{◌≡◌};
ghost use Rattle.refusal.specs.Number.{number_of};

#[derive(Clone, Copy, Debug, PartialEq, Eq)]
pub enum Refusal {
    InvalidHeader = 1,
    InvalidMagicNumber = 2,
    UnsupportedPmTilesVersion = 3,
    InvalidCompression = 4,
    InvalidTileType = 5,
    InvalidCoordinate = 6,
    InvalidTileId = 7,
    VarintCutOff = 8,
    VarintTooLarge = 9,
    InvalidEntry = 10,
    SumTooLarge = 11,
    EmptyEntry = 12,
    EntryIdTooLarge = 13,
    EntriesOutOfOrder = 14,
    RoomTooShort = 15,
    CompressedDirectories = 16,
    RangeOutside = 17,
    TooDeep = 18,
    TooManyEntries = 19,
}

impl Refusal {
    pub fn number(self) -> u8
        ensures { result ≡ number_of self }
    {
        self as u8
    }
}
