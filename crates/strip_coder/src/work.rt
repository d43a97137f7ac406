// The state of the encoder.
ghost use Rattle.std.specs.Prelude.{◌≡◌, ◌+◌, ◌*◌, ◌≤◌, vec_len};
ghost use Rattle.wave_strip.specs.Strip.{columns_of};

use crate::plan::Plan;
use crate::room::most_blocks;
use base_122::{Setting, need};
use segment_code::{SegmentBlocks, SegmentWriter};
use space_packets::Packetiser;
use std::alloc::{AllocError, Global};
use wave_strip::StripWave;

/// The progress of the encoding of an image: rows taken, blocks gathered of the present segment, its index, and the octets of the coded
/// segments before it (`used`), which count against a bound on all of them.
#[derive(Clone, Copy, Debug, PartialEq, Eq)]
pub struct ImageAt {
    pub rows: u32,
    pub filled: u32,
    pub index: u32,
    pub used: u64,
}

/// The transform, one padded row, the blocks of one segment, one packet, the writer of segments, and the progress of the
/// image. All of its samples are at most `room`.
#[derive(Drop)]
pub struct Work {
    pub strip: StripWave,
    pub row: Vec<i32>,
    pub blocks: SegmentBlocks,
    pub packets: Packetiser,
    pub writer: SegmentWriter,
    pub room: u64,
    pub at: ImageAt,
    ghost within: { 62 * (8 * columns_of strip) + vec_len row + 65 * blocks.most ≤ room },
}

impl Work {
    ghost use Rattle.std.specs.Prelude.{◌≡◌, ◌≤◌, IfOk, IsTrue};
    ghost use Rattle.plane_defs.specs.Codes.{is_book_sound};
    ghost use Rattle.base_122.specs.Ranges.{IsInRange};
    ghost use Rattle.strip_coder.specs.Works.{IsMadeFor, most_blocks, samples_of, RepresentsNone};

    /// Takes all memory that images of this setting need (docs/architecture.md, "The encoder"), and makes the tables of its code book, which
    /// must be sound. It fails only if there is too little memory.
    pub fn new(alloc: Global, setting: &Setting) -> Result<Work, AllocError>
        requires in_range { IsInRange setting.now }
        requires book { IsTrue (is_book_sound setting.now.book) }
        ensures made { IfOk result (IsMadeFor setting.now) }
        ensures blocks { IfOk result (λ made. made.blocks.most ≡ most_blocks setting.now) }
        ensures start { IfOk result (RepresentsNone setting.now) }
    {
        let geometry = setting.geometry_for(Plan::tallest(setting).rows);
        let width = geometry.padded_width();
        let count = most_blocks(setting) as usize;
        let row = vec![in alloc; 0; width as usize]?;
        let blocks = SegmentBlocks::new(alloc, count)?;
        let packets = Packetiser::new(alloc, setting.packet)?;
        let strip = StripWave::new(alloc, width)?;
        Ok(Work {
            strip,
            row,
            blocks,
            packets,
            writer: SegmentWriter::new(&setting.book),
            room: need(setting),
            at: ImageAt {
                rows: 0,
                filled: 0,
                index: 0,
                used: 0,
            },
        })
    }

    /// Returns the number of samples that it holds.
    pub fn samples(&self) -> u64
        ensures value { result ≡ samples_of self.now }
        ensures most { result ≤ self.now.room }
    {
        self.strip.samples() + self.row.len() as u64 + self.blocks.samples()
    }
}
