// The laws of what an encoder gives.
ghost use Rattle.encoder_rows.specs.Rows.{GivesAsEncode, OutputsFit, RoomsAreEnough};

/// As long as it isn't known that the rows so far are all, an encoder has given exactly what `encode` has given after the same rows. With
/// the end it has given all packets of the image, whatever is known.
pub const fn gives_as_encode()
    ensures { GivesAsEncode }
{}

/// All packets of an image together have at most the octets that `image_room` returns.
pub const fn outputs_fit()
    ensures { OutputsFit }
{}

/// What `row_room` and `end_room` return is enough for each row and each end of an image.
pub const fn rooms_are_enough()
    ensures { RoomsAreEnough }
{}
