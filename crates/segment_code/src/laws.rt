// What some octets hold, and the laws of what octets after a head hold.
ghost use Rattle.segment_code.specs.Coded.{CodedTextsAreRead};
ghost use Rattle.segment_code.specs.Laws.{TextsEndThere, OutcomesAgree, TextsEndSo, AnswersAgree};
ghost use Rattle.segment_code.specs.Parts.{TextsGiveParts};
ghost use Rattle.segment_code.specs.Spelled.{SpelledTextsDecide};
ghost use Rattle.segment_code.specs.Worked.{WorkedAnswers};
ghost use Rattle.segment_code.specs.ShortTexts.{TextsAreShort};

use segment_defs::{segments_are_read, texts_are_read, texts_read_as_wished};

/// Octets of coded segments that are worked out by hand hold what they should.
pub const fn worked_answers()
    ensures { WorkedAnswers }
{}

/// Octets that decide what a text holds decide it whatever follows, and fewer decide nothing.
pub const fn texts_end_there()
    ensures { TextsEndThere }
{
    segments_are_read();
}

/// A text with its end holds what its octets hold, if it ends with them.
pub const fn outcomes_agree()
    ensures { OutcomesAgree }
{}

/// The octets that were taken of a text determine what it holds, or by which name it is refused.
pub const fn texts_end_so()
    ensures { TextsEndSo }
{
    segments_are_read();
}

/// Which octets decide what a text holds, and whether and why it is refused, does not depend on whether its numbers are restored.
pub const fn answers_agree()
    ensures { AnswersAgree }
{}

/// The numbers that a text gives, restored or as they are, are multiples of their weights, and small.
pub const fn texts_give_parts()
    ensures { TextsGiveParts }
{}

/// Octets that begin with the items of some values decide blocks: without a stop these values.
pub const fn spelled_texts_decide()
    ensures { SpelledTextsDecide }
{
    segments_are_read();
}

/// What was encoded is decoded: of values that can be coded, a coded text gives a part. If no limit cuts its items it gives the values as
/// far as the stop. If there is no stop either, it gives them as they are, restored or not.
pub const fn coded_texts_are_read()
    ensures { CodedTextsAreRead }
{
    texts_are_read();
    texts_read_as_wished();
}

/// Without a limit a text is never cut: head and items of values that can be coded take fewer than 2^31 octets.
pub const fn texts_are_short()
    ensures { TextsAreShort }
{}
