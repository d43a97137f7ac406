// The parameters of a decoder as C has them.
ghost use Rattle.std.specs.Prelude.{◌≡◌, IfOk, IsTrue};
ghost use Rattle.base_122.specs.declared.wish.DecodeWish.{DecodeWish as WishValue};
ghost use Rattle.plane_defs.specs.Codes.{is_book_sound};
ghost use Rattle.strip122_c.specs.Wishes.{wish_in};

use crate::setting::{SettingRefusal, read_book_in};
use base_122::DecodeWish;

/// The parameters of a decoder.
#[repr(C)]
#[derive(Clone, Copy, Debug, PartialEq, Eq)]
pub struct Strip122Wish {
    /// The size of this structure.
    pub size: u32,
    /// The APID of the packets that are read.
    pub apid: u16,
    /// Whether `book` is the code book; otherwise it is that of the profile.
    pub has_book: u8,
    /// The octets of a code book (docs/formats.md, "Words and codes").
    pub book: [u8; 138],
    /// The greatest number of pixels of a picture.
    pub pixels: u64,
    /// The number of octets at which reading ends.
    pub octets: u64,
    /// Whether coefficients that are given in part are moved inside their intervals (docs/formats.md, "Restored numbers"); 0 is no.
    pub restore: u8,
}

// The size of a wish.
const SIZE: u32 = 176;

const _: () = prove!(size_of::<Strip122Wish>() == 176);

/// Returns the parameters of a decoder. The book is sound.
pub(crate) fn read_wish(wish: &Strip122Wish) -> Result<DecodeWish, SettingRefusal>
    ensures value { result ≡ wish_in wish.now }
    ensures book { IfOk result (λ (w : WishValue). IsTrue (is_book_sound w.book)) }
{
    if wish.size != SIZE {
        return Err(SettingRefusal::WrongSize);
    }
    match read_book_in(wish.has_book, &wish.book) {
        Ok(book) => Ok(DecodeWish {
            apid: wish.apid,
            pixels: wish.pixels,
            octets: wish.octets,
            book,
            restore: wish.restore != 0,
        }),
        Err(_) => Err(SettingRefusal::BadBook),
    }
}
