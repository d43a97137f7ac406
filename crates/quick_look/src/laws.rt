// The laws on the values of a look.
ghost use Rattle.quick_look.specs.Look.{LookIsLow};
ghost use Rattle.quick_look.specs.LookLaws.{LooksOfImages};

use segment_code::{coded_texts_are_read, texts_are_short};

/// A look has the values of the lowest of the bands that the picture of the same blocks is made from, each clamped.
pub const fn look_is_low()
    ensures { LookIsLow }
{}

/// The look at all packets of an image, without a stop, a limit and a total, has the coefficients of LL3 of that image, each clamped, if
/// segments are read with the setting's code book and this is sound, whether numbers are restored or not.
pub const fn looks_are_of_images()
    ensures { LooksOfImages }
{
    texts_are_short();
    coded_texts_are_read();
}
