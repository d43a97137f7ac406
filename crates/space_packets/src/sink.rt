// A text that is given octet by octet.
ghost use Rattle.std.specs.Prelude.{◌≤◌, ◌+◌, ◌^◌};
ghost use Rattle.item_defs.specs.Bits.{bits_of};
ghost use Rattle.bit_pipe.specs.Sinks.{PutsOctets};
ghost use Rattle.space_packets.specs.Progress.{given_octets};
ghost use Rattle.space_packets.specs.PacketSink.{packet_sink};

use crate::packetiser::Packetiser;
use bit_pipe::OctetOut;
use port_122::Port;

/// The sink of the begun text of a packetiser, with its port (docs/formats.md, "Packets").
///
/// As a sink it was given the octets of the begun text, and it counts the port's `write_faults`. If no text is begun it
/// takes no octet.
#[derive(Drop)]
pub struct PacketSink<'a, X> {
    pub packets: &'a mut Packetiser,
    pub port: &'a mut X,
}

impl<'a, X: Port> PacketSink<'a, X> {
    // Gives the octets of a word one by one, since they may belong to two packets.
    fn put_each(&mut self, word: u64) -> Result<(), bit_pipe::Failed>
        requires { given_octets self.old.packets.now + 8 ≤ 2 ^ 32 }
        ensures { PutsOctets (packet_sink X.outside) result self.old self.new (bits_of 64 word) }
    {
        let mut left: u8 = 64;
        while left > 0 {
            left -= 8;
            self.put(((word >> left) & 0xff) as u8)?;
        }
        Ok(())
    }
}

impl<'a, X: Port> OctetOut for PacketSink<'a, X> {
    ghost use Rattle.space_packets.specs.PacketSink.{packet_sink};

    ghost sink = { packet_sink X.outside };

    fn put(&mut self, octet: u8) -> Result<(), bit_pipe::Failed> {
        let Ok(()) = self.packets.put(self.port, octet) else {
            return Err(bit_pipe::Failed);
        };
        Ok(())
    }

    fn put_word(&mut self, word: u64) -> Result<(), bit_pipe::Failed> {
        if !self.packets.has_room_for_word() {
            return self.put_each(word);
        }
        self.packets.add_word(word);
        Ok(())
    }
}
