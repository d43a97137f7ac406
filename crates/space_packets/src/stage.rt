// The stage of a packetiser.
ghost use Rattle.std.specs.Prelude.{◌≡◌, ◌<◌, ◌-◌, ◌^◌, if◌then◌else◌};
ghost use Rattle.space_packets.specs.Parts.{text_at};
ghost use Rattle.space_packets.specs.declared.stage.PacketiserState.TheVariants.{Idle, Begun};

use packet_defs::Ancillary;

/// A begun text: the APID of its packets, and the ancillary data of the next of them.
#[derive(Clone, Copy)]
pub struct Text {
    pub apid: u16,
    pub ancillary: Ancillary,
}

/// The stage of a packetiser.
#[derive(Clone, Copy)]
pub enum PacketiserState {
    /// No text is begun.
    Idle,
    /// A text is begun.
    Begun(Text),
    /// A write failed.
    Broken,
}

impl Text {
    /// Returns the stage after a part was written, the last or not: the text is at its next part, or is over.
    pub fn after_part(self, last: bool) -> PacketiserState
        requires { self.ancillary.part < 2 ^ 32 - 1 }
        ensures { result ≡ (if last then Idle else Begun (text_at self 1)) }
    {
        if last {
            return PacketiserState::Idle;
        }
        let ancillary = Ancillary {
            part: self.ancillary.part + 1,
            ..self.ancillary
        };
        PacketiserState::Begun(Text { ancillary, ..self })
    }
}
