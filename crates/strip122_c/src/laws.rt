// The laws of a raster that is encoded and decoded, and of the causes of answers.
ghost use Rattle.strip122_c.specs.Returned.{RastersAreReturned};
ghost use Rattle.strip122_c.specs.Excluding.{CausesExclude};

use strip_decoder::received_is_known;

/// `make_whole` gives the raster of which `encode_whole` gave the packets: no row is missing, and if nothing was omitted, each octet is
/// the same.
pub const fn rasters_are_returned()
    ensures { RastersAreReturned }
{}

/// The causes of the answers to packets exclude each other: except for want of memory, no two answers have their causes at once.
pub const fn causes_exclude()
    ensures { CausesExclude }
{
    received_is_known();
}
