// The laws on a decoder's picture outside the rectangles.
ghost use Rattle.quick_look.specs.Containment.{LossesStay};

use segment_code::texts_are_short;

/// Whatever numbers the missing blocks have, no pixel outside their rectangles changes. The same holds for a picture that a decoder gave
/// whole; and if some packets of an image are read, in order, each pixel outside the rectangles is that of the picture for all of them,
/// whether they report the height or not. The book with which segments are read is the setting's, and sound.
pub const fn decoding_stays_in_rects()
    ensures { LossesStay }
{
    texts_are_short();
}
