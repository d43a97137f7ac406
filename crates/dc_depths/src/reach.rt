ghost use Rattle.std.specs.Prelude.{◌≡◌, ◌≤◌};
ghost use Rattle.dc_depths.specs.Reach.{lows_of};

/// How far a DC part was read: the numbers of the first `blocks` blocks are given down to bit plane `plane`, and those of the
/// others down to the plane above it, or not at all if `plane` is q (docs/formats.md, "DC part and block depths").
#[derive(Clone, Copy, Debug, PartialEq, Eq)]
pub struct DcReach {
    pub plane: u8,
    pub blocks: u32,
}

impl DcReach {
    // Returns the least plane of which a bit is given of the number of this block, if there is one.
    pub(crate) fn low_of(self, block: usize, q: u8) -> Option<u8>
        requires { self.plane ≤ q }
        ensures { result ≡ lows_of q self block }
    {
        if block < self.blocks as usize {
            Some(self.plane)
        } else if self.plane == q {
            None
        } else {
            Some(self.plane + 1)
        }
    }
}
