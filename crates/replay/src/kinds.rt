// The kinds of lines.

// In the order of their numbers, which harness/compare/src/bin/record.rs writes.
#[derive(Clone, Copy, PartialEq, Eq)]
pub(crate) enum Kind {
    Given,
    Difference,
    Cell,
    NamedValues,
    Batch,
    AtSweep,
    AtFixed,
    Row,
    Sweep,
    EveryRoll,
    Field,
    FieldAtRoll,
    Violations,
    Visibility,
    Expand,
    ExpandReordered,
    Result,
    Seconds,
    Vectors,
    Table,
}

static KINDS: [Kind; 20] = [
    Kind::Given,
    Kind::Difference,
    Kind::Cell,
    Kind::NamedValues,
    Kind::Batch,
    Kind::AtSweep,
    Kind::AtFixed,
    Kind::Row,
    Kind::Sweep,
    Kind::EveryRoll,
    Kind::Field,
    Kind::FieldAtRoll,
    Kind::Violations,
    Kind::Visibility,
    Kind::Expand,
    Kind::ExpandReordered,
    Kind::Result,
    Kind::Seconds,
    Kind::Vectors,
    Kind::Table,
];

// Of a word that is no kind's number.
#[derive(Clone, Copy, PartialEq, Eq)]
pub(crate) struct NoKind;

impl TryFrom<u64> for Kind {
    type Error = NoKind;

    fn try_from(word: u64) -> Result<Kind, NoKind> {
        KINDS.get(word as usize).copied().ok_or(NoKind)
    }
}
