// The room of the writer of planes.
ghost use Rattle.std.specs.Prelude.{◌≡◌, ◌*◌, ◌/◌, ◌≤◌, ◌^◌, IfOk, vec_len};

use crate::collect::GaggleWords;
use crate::kept::FREE;
use std::alloc::{AllocError, Global};

/// Room for the words of a gaggle, and for the bits that the words of all whole gaggles of a segment send in a plane.
#[derive(Drop)]
pub struct GaggleRoom {
    pub(crate) words: GaggleWords,
    // 32 masks for each gaggle.
    pub(crate) kept: Vec<u64>,
}

impl GaggleRoom {
    /// Returns room for segments of this number of blocks. Segments of more blocks need no more: the words of the gaggles past
    /// these are found again. The only error is a lack of memory.
    pub fn new(alloc: Global, blocks: usize) -> Result<GaggleRoom, AllocError>
        requires { blocks ≤ 2 ^ 20 }
        ensures { IfOk result (λ room. vec_len room.kept ≡ 32 * (blocks / 16)) }
    {
        Ok(GaggleRoom {
            words: GaggleWords::new(),
            kept: vec![in alloc; 0; FREE * (blocks / 16)]?,
        })
    }

    /// Returns the number of samples of 32 bits for which it has room.
    pub fn samples(&self) -> usize
        requires { vec_len self.now.kept ≤ 2 ^ 22 }
        ensures { result ≡ 2 * vec_len self.now.kept }
    {
        2 * self.kept.len()
    }
}
