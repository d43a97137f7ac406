/// The numbers that a field may have (docs/formats.md, "Bounds").
#[derive(Clone, Copy, Debug, PartialEq, Eq)]
pub struct FieldRange {
    pub least: u64,
    pub most: u64,
}

impl FieldRange {
    ghost use Rattle.std.specs.Prelude.{◌≡◌};
    ghost use Rattle.base_122.specs.Ranges.{is_within};

    /// The number of pixels of a row.
    pub const WIDTH: FieldRange = FieldRange {
        least: 17,
        most: 1_048_575,
    };
    /// The number of rows of an image.
    pub const ROWS: FieldRange = FieldRange {
        least: 17,
        most: 262_144,
    };
    /// The number of bits of a pixel.
    pub const DEPTH: FieldRange = FieldRange { least: 1, most: 16 };
    /// The number of blocks of a segment.
    pub const SEGMENT: FieldRange = FieldRange {
        least: 16,
        most: 1_048_575,
    };
    /// The number of octets of a coded segment, if there is a limit.
    pub const LIMIT: FieldRange = FieldRange {
        least: 32,
        most: 134_217_724,
    };
    /// The number of octets of a code word.
    pub const WORD: FieldRange = FieldRange { least: 1, most: 4 };
    /// The last bit plane that is sent.
    pub const PLANE: FieldRange = FieldRange { least: 0, most: 27 };
    /// The last stage that is sent, minus 1.
    pub const STAGE: FieldRange = FieldRange { least: 0, most: 3 };
    /// The APID, without that of idle packets.
    pub const APID: FieldRange = FieldRange {
        least: 0,
        most: 2_046,
    };
    /// The number of an image.
    pub const IMAGE: FieldRange = FieldRange {
        least: 0,
        most: 65_535,
    };
    /// The greatest number of octets of a packet data field.
    pub const PACKET: FieldRange = FieldRange {
        least: 64,
        most: 65_536,
    };
    /// The greatest number of pixels of a picture that is decoded.
    pub const PIXELS: FieldRange = FieldRange {
        least: 0,
        most: 1 << 40,
    };
    /// The number of octets at which reading ends.
    pub const OCTETS: FieldRange = FieldRange {
        least: 1,
        most: 1 << 40,
    };

    /// Returns whether the number is in this range.
    pub fn contains(self, number: u64) -> bool
        ensures { result ≡ is_within self number }
    {
        self.least <= number && number <= self.most
    }
}
