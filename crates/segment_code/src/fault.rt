// Why a segment's text is not accepted.
ghost use Rattle.std.specs.Prelude.{◌≡◌};

use bit_pipe::{InFault, TextFault};

/// The reason why a segment's text is not accepted (docs/formats.md, "Reading a segment").
#[derive(Clone, Copy, Debug, PartialEq, Eq)]
pub enum SegmentFault {
    /// An identifier has no option.
    BadOption,
    /// A unary part has too many zeros.
    BadDelta,
    /// A block depth is above that of the head.
    BadDepth,
    /// A flag says that a set is significant, but none of its members can be.
    FalseFlag,
    /// The text ends before its items and their padding do.
    ShortSegment,
    /// There are octets after the text's end.
    Overlong,
    /// The packets of the text do not all follow one another.
    BrokenSegment,
    /// The input failed.
    ReadFault,
    /// The input is longer than its bound.
    LongInput,
}

impl From<InFault> for SegmentFault {
    ghost use Rattle.segment_code.specs.Faults.{of_input};

    ghost from_gives = { λ f e. e ≡ of_input f };

    fn from(fault: InFault) -> SegmentFault {
        match fault {
            InFault::ReadFault => SegmentFault::ReadFault,
            InFault::LongInput => SegmentFault::LongInput,
            InFault::Broken => SegmentFault::BrokenSegment,
        }
    }
}

impl From<TextFault> for SegmentFault {
    ghost use Rattle.segment_code.specs.Faults.{of_text};

    ghost from_gives = { λ f e. e ≡ of_text f };

    fn from(fault: TextFault) -> SegmentFault {
        match fault {
            TextFault::BadOption => SegmentFault::BadOption,
            TextFault::BadDelta => SegmentFault::BadDelta,
            TextFault::BadDepth => SegmentFault::BadDepth,
            TextFault::FalseFlag => SegmentFault::FalseFlag,
            TextFault::ReadFault => SegmentFault::ReadFault,
            TextFault::LongInput => SegmentFault::LongInput,
            TextFault::Broken => SegmentFault::BrokenSegment,
        }
    }
}
