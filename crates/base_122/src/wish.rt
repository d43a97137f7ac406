ghost use Rattle.std.specs.Prelude.{◌≡◌};

use crate::book::Book;

/// The parameters of a decoder.
#[derive(Clone, Copy, Debug, PartialEq, Eq)]
pub struct DecodeWish {
    /// The APID of the packets that are read.
    pub apid: u16,
    /// The greatest number of pixels of a picture.
    pub pixels: u64,
    /// The number of octets at which reading ends.
    pub octets: u64,
    /// The code book with which coded segments are read.
    pub book: Book,
    /// Whether the coefficients that a segment gives in part are moved inside their intervals (docs/formats.md, "Restored numbers").
    pub restore: bool,
}

impl DecodeWish {
    ghost use Rattle.base_122.specs.Setting.{usual_wish};

    /// Returns the usual parameters: APID 100, pictures of at most 2^32 pixels, at most 2^40 octets, the code book of
    /// the profile, and no restored coefficients.
    pub fn usual() -> DecodeWish
        ensures { result ≡ usual_wish }
    {
        DecodeWish {
            apid: 100,
            pixels: 1 << 32,
            octets: 1 << 40,
            book: Book::profile(),
            restore: false,
        }
    }
}
