// Laws of the books that are read.
ghost use Rattle.code_book.specs.Reading.{SoundBooksAreRead};

/// Octets are read as a book exactly if they begin with the mark and the book of the codes after it is sound.
pub const fn sound_books_are_read()
    ensures { SoundBooksAreRead }
{}
