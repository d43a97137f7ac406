use crate::tables::Reading;
use base_122::{DecodeWish, Field, Setting};
use raster_rows::MadeImage;

/// The command that the arguments ask for.
#[derive(Clone, Copy, Debug, PartialEq, Eq)]
pub enum Command {
    /// `encode`: it takes a raster and gives its packets. If the second field is true, the input begins with a code book, which is that of
    /// the setting in place of the profile's.
    Encode(Setting, bool),
    /// `mux`: it takes the rows of several cameras and gives the packets of all. It has the setting of the first camera, and the number
    /// of cameras. The APID of a camera is that of the one before it, plus 1.
    Mux(Setting, u8),
    /// A command that takes packets and gives what is made of them. If the third field is true, the input begins with a code book, which is
    /// that of the wish in place of the profile's.
    Read(Reading, DecodeWish, bool),
    /// `info`: it takes packets and gives a line for each image. It has the APID of the images, or `None` for those of all APIDs, and the
    /// most octets that are read.
    Info(Option<u16>, u64),
    /// `pick`: it takes packets and gives those of one APID; if there is the number of an image, those of that image alone. The wish has no
    /// cap on pixels.
    Pick(DecodeWish, Option<u16>),
    /// `bare-encode`: it takes a raster and gives its bare stream. The height is known before, and there is no total.
    BareEncode(Setting),
    /// `bare-decode`: it takes a bare stream and gives its picture. The wish has no APID of its own.
    BareDecode(DecodeWish),
    Make(MadeImage),
    /// `trial`: it has a setting, and the seed of the made image.
    Trial(Setting, u32),
}

/// The first thing that is wrong with the arguments (docs/DECISIONS.md, "Words"). A place counts from 0, the command's.
#[derive(Clone, Copy, Debug, PartialEq, Eq)]
pub enum WordFault {
    MissingCommand,
    BadWord { place: usize },
    MissingKey(Field),
    OutOfRange(Field),
}
