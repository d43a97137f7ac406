ghost use Rattle.std.specs.Prelude.{◌≡◌, IsTrue};
ghost use Rattle.base_122.specs.Profile.{profile};
ghost use Rattle.plane_defs.specs.Codes.{is_book_sound};

use base_122::Book;

/// Returns the code book of this product's profile, which is sound (docs/formats.md, "Words and codes"): each table is free of prefixes
/// and complete over its 4, 8 or 16 codes, each of 1 to 8 bits.
pub fn profile_book() -> Book
    ensures profile { result ≡ profile }
    ensures sound { IsTrue (is_book_sound result) }
{
    Book::profile()
}
