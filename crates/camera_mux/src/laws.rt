// The laws of what is given for several cameras.
ghost use Rattle.camera_mux.specs.MuxLaws.{CamerasAreKept};

/// Of all that is given for the records of several cameras, the packets of a camera's APID are exactly those that its rows settle, in
/// order; once it has all its rows these are all packets of its image, exactly what the camera gives alone.
pub const fn cameras_are_kept()
    ensures { CamerasAreKept }
{}
