// The law of what is received.
ghost use Rattle.strip_decoder.specs.Laws.{ReceivedIsKnown};

use segment_defs::wishes_agree;

/// The octets of a stream and a code book determine which segments are received, and with which numbers, restored or not, in exactly one way.
/// Whether they are restored changes no segment that is received, and no damage.
pub const fn received_is_known()
    ensures { ReceivedIsKnown }
{
    wishes_agree();
}
