// The images of a stream, and what is known of each.
use stream_defs::FateState;

/// An image of a stream: the APID of its packets, and its number.
#[derive(Clone, Copy, Debug, PartialEq, Eq)]
pub struct ImageId {
    pub apid: u16,
    pub image: u16,
}

/// The counts of an image's kept packets.
#[derive(Clone, Copy, Debug, PartialEq, Eq)]
pub struct ImageCount {
    /// The number of kept packets.
    pub packets: u64,
    /// The number of octets of these packets, each with its primary header.
    pub octets: u64,
    /// The number of segments of which every packet is kept.
    pub received: u64,
}

/// What is known of an image after some packets of the stream.
#[derive(Clone, Copy, Debug, PartialEq, Eq)]
pub struct ImageEntry {
    pub id: ImageId,
    /// The state that its packets leave for the next one's fate.
    pub state: FateState,
    pub count: ImageCount,
}

impl ImageCount {
    ghost use Rattle.std.specs.Prelude.{◌≡◌};
    ghost use Rattle.camera_mux.specs.Tables.{count_with, FitsMore};

    /// Returns the counts with one kept packet more, of this number of octets, that closes its segment's text or doesn't.
    pub fn with_packet(&self, octets: u64, closes: bool) -> ImageCount
        requires { FitsMore self.now octets }
        ensures { result ≡ count_with self.now octets closes }
    {
        ImageCount {
            packets: self.packets + 1,
            octets: self.octets + octets,
            received: if closes {
                self.received + 1
            } else {
                self.received
            },
        }
    }
}
