// The laws of what is listed of an image.
ghost use Rattle.camera_mux.specs.ImageLaws.{ReceivedAreComplete, ImagesHaveGeometry};

/// The segments that an image's line reports as received are those of which all packets are kept.
pub const fn received_are_complete()
    ensures { ReceivedAreComplete }
{}

/// Each image that has begun has a geometry, so each image is listed with a line.
pub const fn images_have_geometry()
    ensures { ImagesHaveGeometry }
{}
