/// Why bytes are no request or no reply, with the place of the refused field: its first byte, counted from
/// the value's start; for padding, for a name and for the body of a create the first bad byte or number.
#[derive(Clone, Copy, Debug, PartialEq, Eq)]
pub enum UpdateFault {
    /// Memory ran out; the decoder is as it was.
    Memory,
    /// The magic isn't that of the format.
    BadMagic(usize),
    /// No update type has the number.
    BadType(usize),
    /// More than 128 updates or results, or not as many parameters as the type has.
    BadCount(usize),
    /// A parameter or a result can't be so long.
    BadLength(usize),
    /// A byte that has to be 0 isn't.
    BadPadding(usize),
    /// A number or a byte of a name that can't stand there.
    BadValue(usize),
    /// The field would end behind byte 24,576.
    TooLong(usize),
}
