// The gaps between the blocks of an image, kept while its blocks are passed.
ghost use Rattle.std.specs.Prelude.{◌≡◌, ◌+◌, MatchOption, ℕ, Bool, false};
ghost use Rattle.quick_look.specs.Gaps.{AreGaps, lost_below};
ghost use Rattle.quick_look.specs.GapSinks.{HasKept, HasOpen};

use crate::Gap;
use base_122::Geometry;
use port_122::{Failed, Port};
use std::alloc::{AllocError, Global};
use strip_decoder::BlockSink;

/// A sink that keeps the gaps between the blocks of an image, in a list that grows while blocks are passed.
///
/// A call for a block can't report that the list can't grow. So if memory is refused the sink remembers it, keeps no further gap, and
/// `into_gaps` reports it.
#[derive(Drop)]
pub struct Gaps {
    /// The gaps after which a block with numbers was passed.
    pub ended: Vec<Gap>,
    /// The first block of the gap that the last block is in.
    pub open_from: Option<u64>,
    /// The number of blocks that were passed.
    pub passed: u64,
    /// Whether memory was refused.
    pub refused: bool,
}

impl BlockSink for Gaps {
    ghost use Rattle.quick_look.specs.GapSinks.{gap_sink};

    ghost sink = { gap_sink };

    fn begin(alloc: Global, _geometry: &Geometry) -> Result<Gaps, AllocError> {
        Ok(Gaps {
            ended: Vec::new(alloc),
            open_from: None,
            passed: 0,
            refused: false,
        })
    }

    fn put<X: Port>(&mut self, _port: &mut X, _numbers: &[i32]) -> Result<(), Failed> {
        end_gap(self);
        self.passed += 1;
        Ok(())
    }

    fn lose<X: Port>(&mut self, _port: &mut X) -> Result<(), Failed> {
        self.open_from = Some(self.open_from.unwrap_or(self.passed));
        self.passed += 1;
        Ok(())
    }

    fn end_at(&mut self, _geometry: &Geometry) {}
}

// Keeps the gap that the last block is in, if there is one: the next block isn't missing.
fn end_gap(gaps: &mut Gaps)
    requires { HasOpen gaps.old }
    ensures passed { gaps.new.passed ≡ gaps.old.passed }
    ensures none_open { gaps.new.open_from ≡ None }
    ensures ended { (lost : ℕ → Bool) → HasKept gaps.old lost gaps.old.passed → lost gaps.old.passed ≡ false → gaps.new.refused ≡ false →
        AreGaps lost 0 gaps.new.ended.items (gaps.old.passed + 1) }
{
    let Some(first) = gaps.open_from else {
        return;
    };
    gaps.open_from = None;
    if gaps.refused {
        return;
    }
    let gap = Gap {
        first,
        last: gaps.passed - 1,
    };
    if gaps.ended.push(gap).is_err() {
        gaps.refused = true;
    }
}

/// Returns the gaps of all blocks that were passed, or none if memory was refused.
pub fn into_gaps(mut sink: Gaps) -> Option<Vec<Gap>>
    requires { HasOpen sink }
    ensures { MatchOption result (Unit {0}) (λ gaps. (lost : ℕ → Bool) → HasKept sink lost sink.passed →
        AreGaps (lost_below sink.passed lost) 0 gaps.items (sink.passed + 1)) }
{
    end_gap(&mut sink);
    if sink.refused {
        return None;
    }
    Some(sink.ended)
}
