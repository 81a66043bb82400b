/// What a parameter is.
#[derive(Clone, Copy, Debug, PartialEq, Eq)]
pub enum Shape {
    /// The body of an object, 48 bytes.
    Body,
    /// Mode, owner and group, 12 bytes.
    Attributes,
    /// A name, 1 to 255 bytes.
    Name,
    /// The value of an extended attribute, up to 4,096 bytes.
    Value,
    /// A FID, 16 bytes.
    Fid,
    /// A layout, 8 bytes.
    Layout,
}

/// A number of a body.
#[derive(Clone, Copy, Debug, PartialEq, Eq)]
pub enum BodyField {
    /// 1 a file, 2 a directory, 3 a stripe.
    Kind,
    /// The mode.
    Mode,
    /// The owner.
    Uid,
    /// The group.
    Gid,
    /// The count of links.
    Links,
    /// Of the layout: the count of stripes, 0 where it is plain.
    Count,
    /// Of the layout: the target of the first stripe.
    Start,
    /// Of the layout: zero.
    Zero,
    /// Of the layout: its generation.
    Generation,
    /// Of the FID: the sequence.
    Seq,
    /// Of the FID: the object id.
    Oid,
    /// Of the FID: the version.
    Ver,
    /// The number of a stripe.
    Index,
}
