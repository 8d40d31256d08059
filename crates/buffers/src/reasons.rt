// Why a call is refused.
ghost use Rattle.std.specs.Prelude.{◌≡◌};
ghost use Rattle.buffers.specs.Refusal.{number_of};

// Why a call is refused, by the names that the C header gives the numbers 1 to 20. A call answers `Result<_, Refusal>`.
#[derive(Clone, Copy, Debug, PartialEq, Eq)]
pub enum Refusal {
    LengthsDoNotFit,
    TooLarge,
    RollCountOutOfRange,
    PositionOutOfRange,
    TargetOutOfRange,
    PanelOutOfRange,
    OutputTooShort,
    TimeOutOfRange,
    NoSuchIndex,
    ChunkHasLine,
    JournalNotRight,
    JournalTorn,
    JournalNotEmpty,
    SampleInvalid,
    ChunkLacksLine,
    RadecOutOfRange,
    ToleranceCountDiffers,
    RollTableLength,
    RollTableEntry,
    TargetNotUnit,
}

impl Refusal {
    // Its number in the documents: 1 to 15 are document 01's, 16 to 20 document 02's.
    pub fn number(self) -> u64
        ensures { result ≡ number_of self }
    {
        match self {
            Refusal::LengthsDoNotFit => 1,
            Refusal::TooLarge => 2,
            Refusal::RollCountOutOfRange => 3,
            Refusal::PositionOutOfRange => 4,
            Refusal::TargetOutOfRange => 5,
            Refusal::PanelOutOfRange => 6,
            Refusal::OutputTooShort => 7,
            Refusal::TimeOutOfRange => 8,
            Refusal::NoSuchIndex => 9,
            Refusal::ChunkHasLine => 10,
            Refusal::JournalNotRight => 11,
            Refusal::JournalTorn => 12,
            Refusal::JournalNotEmpty => 13,
            Refusal::SampleInvalid => 14,
            Refusal::ChunkLacksLine => 15,
            Refusal::RadecOutOfRange => 16,
            Refusal::ToleranceCountDiffers => 17,
            Refusal::RollTableLength => 18,
            Refusal::RollTableEntry => 19,
            Refusal::TargetNotUnit => 20,
        }
    }
}
