// What a reader without an assembly answers.
ghost use Rattle.std.specs.Prelude.{◌≡◌};
ghost use Rattle.packet_assembly.specs.PacketSteps.{framing_in};

use packet_defs::{Framing, PacketRead};

/// Returns why the stream can't be read on, if that was read.
pub fn framing_in(read: PacketRead) -> Option<Framing>
    ensures { result ≡ framing_in read }
{
    match read {
        PacketRead::Fault(framing) => Some(framing),
        _ => None,
    }
}
