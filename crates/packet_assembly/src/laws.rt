// Laws of the calls that read packet by packet.
ghost use Rattle.packet_assembly.specs.Laws.{AnswersAgain};
ghost use Rattle.packet_assembly.specs.Wholes.{TailsReport};

/// After the end, a framing fault and an input that is too long each further `next_packet` returns the same.
pub const fn answers_again()
    ensures { AnswersAgain }
{}

/// A segment's kept packets are the one that begins it and those that carry its text, and they are complete exactly if that
/// text ends plainly. Of a segment that no packet begins none is kept.
pub const fn tails_report()
    ensures { TailsReport }
{}
