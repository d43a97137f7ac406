// Why a call on bits failed.
ghost use Rattle.std.specs.Prelude.{◌≡◌};
ghost use Rattle.bit_pipe.specs.declared.fault.PutFault.TheVariants.{WriteFault};

/// The fault of a sink that did not take an octet.
#[derive(Clone, Copy, Debug, PartialEq, Eq)]
pub struct Failed;

/// The reason why bits were not put.
#[derive(Clone, Copy, Debug, PartialEq, Eq)]
pub enum PutFault {
    /// The bits do not all fit below the bound. Those that fit were put.
    Stopped,
    /// The sink failed.
    WriteFault,
}

impl From<Failed> for PutFault {
    ghost from_gives = { λ f e. e ≡ WriteFault };

    fn from(_: Failed) -> PutFault {
        PutFault::WriteFault
    }
}

/// The reason why no octet was read.
#[derive(Clone, Copy, Debug, PartialEq, Eq)]
pub enum InFault {
    /// The input failed.
    ReadFault,
    /// The input is longer than a reader accepts.
    LongInput,
    /// The input ends within a text.
    Broken,
}

/// The reason why a text was not read (docs/formats.md, "Reading a segment").
#[derive(Clone, Copy, Debug, PartialEq, Eq)]
pub enum TextFault {
    BadOption,
    BadDelta,
    BadDepth,
    FalseFlag,
    ReadFault,
    LongInput,
    Broken,
}

impl From<InFault> for TextFault {
    ghost use Rattle.bit_pipe.specs.Faults.{of_input};

    ghost from_gives = { λ f e. e ≡ of_input f };

    fn from(fault: InFault) -> TextFault {
        match fault {
            InFault::ReadFault => TextFault::ReadFault,
            InFault::LongInput => TextFault::LongInput,
            InFault::Broken => TextFault::Broken,
        }
    }
}

/// How far the items of a text were read: all of them, or up to the place where the text was cut.
#[derive(Clone, Copy, Debug, PartialEq, Eq)]
pub enum Part {
    Whole,
    Ended,
}
