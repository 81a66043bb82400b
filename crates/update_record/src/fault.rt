/// Why bytes are no record or no message, with the place of the refused field: its first byte, counted from
/// the value's start; for padding, for a name and for the body of a create the first bad byte or number.
#[derive(Clone, Copy, Debug, PartialEq, Eq)]
pub enum RecordFault {
    /// Memory ran out.
    Memory,
    /// The magic isn't that of the format.
    BadMagic(usize),
    /// No update type, or no kind of messages, has the number.
    BadType(usize),
    /// There can't be so many parts, updates, parameters or results.
    BadCount(usize),
    /// A parameter, a part, a result or a body isn't or can't be so long.
    BadLength(usize),
    /// A byte that has to be 0 isn't.
    BadPadding(usize),
    /// A number or a byte of a name that can't stand there.
    BadValue(usize),
    /// The field would end behind byte 24,576 of its value.
    TooLong(usize),
    /// The input ends inside the value, after so many bytes.
    Truncated(usize),
}
