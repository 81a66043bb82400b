/// Why a field can't stand. These are the faults of all byte formats; each format names some of them.
#[derive(Clone, Copy, Debug, PartialEq, Eq)]
pub enum Reason {
    /// It isn't the number that begins a value of the format.
    BadMagic,
    /// No kind of values has the number.
    BadType,
    /// There can't be so many.
    BadCount,
    /// It can't be so long.
    BadLength,
    /// A byte that has to be 0 isn't.
    BadPadding,
    /// It isn't one of the values that may stand there.
    BadValue,
    /// The field would end behind the limit.
    TooLong,
    /// It isn't the index that comes next.
    BadIndex,
    /// What is repeated at the end isn't what stood at the start.
    BadTail,
    /// A bit or a count of a bitmap isn't that of its records.
    BadBitmap,
}

/// A refused field.
#[derive(Clone, Copy, Debug, PartialEq, Eq)]
pub struct Refusal {
    /// Where it begins, in bytes from the value's start; for padding and for names the first bad byte.
    pub place: usize,
    /// Why it can't stand.
    pub reason: Reason,
}

/// What bytes are, judged field by field from the left.
#[derive(Clone, Copy, Debug, PartialEq, Eq)]
pub enum Verdict {
    /// Each complete field stands, and a field is to come.
    More,
    /// The bytes up to this place are a whole value.
    Done(usize),
    /// This field is the first that can't stand.
    Refused(Refusal),
}
