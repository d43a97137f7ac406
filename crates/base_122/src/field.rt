/// A field of a setting or of a wish to decode, in the order in which fields are tested.
#[derive(Clone, Copy, Debug, PartialEq, Eq)]
pub enum Field {
    Width,
    Rows,
    Depth,
    Segment,
    Limit,
    Fill,
    Word,
    Stop,
    Weights,
    Apid,
    Image,
    Packet,
    Pixels,
    Octets,
    Total,
    Cameras,
}

/// The fault of a field that is the first out of its range (docs/formats.md, "Bounds").
#[derive(Clone, Copy, Debug, PartialEq, Eq)]
pub struct OutOfRange {
    pub field: Field,
}
