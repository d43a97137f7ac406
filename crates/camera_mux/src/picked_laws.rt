// The laws of packets that are picked.
ghost use Rattle.camera_mux.specs.PickLaws.{PickingKeeps};

/// What is picked of a stream is whole packets, and for its APID it is read as the stream is: the same packets are kept and the
/// geometry is the same, so the same segments are received.
pub const fn picking_keeps()
    ensures { PickingKeeps }
{}
