// The laws on which a decoder's clauses rest.
ghost use Rattle.strip_decoder.specs.Containment.{DecodedContained, LossesContained};
ghost use Rattle.strip_decoder.specs.RoundTrip.{RoundTrip};

use segment_code::{coded_texts_are_read, texts_are_short};

/// Whatever numbers the lost blocks have, no pixel outside the damaged rows changes. So if some packets of an image are read, in order,
/// each pixel outside their damage is that of the picture for all of them, and exactly the segments with all their packets are received.
/// The book with which segments are read is the setting's, and sound, and the numbers of both pictures are restored or not. This holds for
/// each height that the setting admits: if the height is reported last and the last segment isn't begun, the rows are those that the kept
/// heads determine.
pub const fn losses_are_contained()
    ensures { LossesContained }
{
    texts_are_short();
    coded_texts_are_read();
}

/// The same holds for a picture that a decoder gave whole; and each pixel outside its damage is that of the picture for all packets, if it
/// took some packets of an image, of which one begins a segment, whether they report the height or not, and its wish has the setting's book.
/// The numbers of the picture for all packets are restored if the wish says so.
pub const fn decoding_contains()
    ensures { DecodedContained }
{
    texts_are_short();
    coded_texts_are_read();
}

/// All packets of an image, in order, give it whole, whether its height is reported first or last: its size, each of its block rows, and no
/// fault of framing. If there is neither a stop nor a limit they give exactly its pixels, restored or not. The book with which segments are
/// read is the setting's, and sound. The same holds for what a decoder gave that took them, if its wish has that book.
pub const fn round_trip()
    ensures { RoundTrip }
{
    texts_are_short();
    coded_texts_are_read();
}
