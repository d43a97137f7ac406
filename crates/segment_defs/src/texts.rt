// What some coded segments hold, and the laws of their script.
ghost use Rattle.segment_defs.specs.GivenLaws.{TextsAreGiven, TextsAreRestored};
ghost use Rattle.segment_defs.specs.TextLaws.{SegmentsAreRead, TextsAreRead, TextsHaveOutcomes};
ghost use Rattle.segment_defs.specs.TextWishLaws.{WishesAgree, TextsReadAsWished};
ghost use Rattle.segment_defs.specs.Worked.{WorkedTexts};
ghost use Rattle.segment_defs.specs.WorkedGiven.{WorkedGiven};

/// Coded segments that are worked out by hand hold what they should.
pub const fn worked_texts()
    ensures { WorkedTexts }
{}

/// Coded segments that are cut, and are worked out by hand, are restored so.
pub const fn worked_given()
    ensures { WorkedGiven }
{}

/// What bits of a coded segment are read as, restored or as it is, is what its items say, and a reading that is cut can be completed.
pub const fn segments_are_read()
    ensures { SegmentsAreRead }
{}

/// A text is read as values exactly if it holds some, and is refused by a name exactly if it has this name. Whichever values are read
/// in it, the answer has the same part of them: all, if the text has no stop and no item is cut.
pub const fn texts_are_read()
    ensures { TextsAreRead }
{}

/// Each text holds some values or is refused, by one name.
pub const fn texts_have_outcomes()
    ensures { TextsHaveOutcomes }
{}

/// The numbers of a text with what is given of each are those of the text without.
pub const fn texts_are_given()
    ensures { TextsAreGiven }
{}

/// Restored numbers are multiples of their weights, in the range of the numbers. If all items of a text without a stop are given, they
/// are the numbers.
pub const fn texts_are_restored()
    ensures { TextsAreRestored }
{}

/// Whether a text is accepted, and the name by which it is refused otherwise, does not depend on whether its numbers are restored.
pub const fn wishes_agree()
    ensures { WishesAgree }
{}

/// The numbers of a text, restored or as they are, are multiples of their weights. If all items of a text without a stop are given, they
/// are its values.
pub const fn texts_read_as_wished()
    ensures { TextsReadAsWished }
{}
