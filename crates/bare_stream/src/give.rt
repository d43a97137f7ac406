// Gives the blocks of a segment that was read to the picture of a walk.
ghost use Rattle.std.specs.Prelude.{◌≡◌, ◌<◌, ◌+◌, [], List, ℕ, Err, true, false, MatchResult, IfOk};
ghost use Rattle.port_122.specs.Outside.{Outside};
ghost use Rattle.base_122.specs.declared.wish.DecodeWish.{DecodeWish};
ghost use Rattle.bare_text.specs.declared.parts.PartsInForce.{PartsInForce};
ghost use Rattle.bare_stream.specs.Blocks.{AreParts};
ghost use Rattle.bare_stream.specs.Decoded.{DecodesBare, IfKnown};
ghost use Rattle.bare_stream.specs.Reads.{SegmentsRead, InForceAfter};
ghost use Rattle.bare_stream.specs.Walks.{IsSound, IsNext, IsAt, IsHeadOf, IsNextText, HasEnded};

use crate::blocks::put_blocks;
use crate::fault::BareFault;
use crate::heads::height_with;
use crate::input::PortIn;
use crate::walk::Walk;
use bare_text::BareHead;
use port_122::Port;

/// Gives the blocks of the next segment, whose text was read and which isn't the last one.
pub fn give_next<X: Port>(
    walk: &mut Walk,
    input: &mut PortIn<X>,
    read: &BareHead,
) -> Result<(), BareFault>
    requires sound { IsSound walk.old }
    requires next { IsNext walk.old read.now }
    requires going { read.now.head.last ≡ false }
    requires parts { AreParts walk.old.room.blocks.items read.now.head.blocks read.now.head.image.weights.shifts }
    ensures port { input.new.port.ghost_name ≡ input.old.port.ghost_name }
    ensures walk { IfOk result (λ _. IsSound walk.new × (walk.new.first ≡ walk.old.first) × (walk.new.index ≡ walk.old.index + 1)) }
    ensures run { (wish : DecodeWish) (start : Outside) (r : SegmentsRead) (prefix text : List ℕ) (before : PartsInForce) →
        IsAt X.outside wish start r text input.old walk.old → IfKnown start (λ all. IsHeadOf wish r before walk.old.parts prefix read.now) →
        IfKnown start (λ all. IsNextText wish r before walk.old text read.now) → MatchResult result
        (λ _. (more : SegmentsRead) × IsAt X.outside wish start more [] input.new walk.new × InForceAfter wish start more walk.new.parts)
        (λ fault. DecodesBare wish start (X.outside input.new.port.now) (Err fault)) }
{
    let count = read.head.blocks as usize;
    let Ok(()) = put_blocks(input.port, &mut walk.picture, &walk.room.blocks, count) else {
        return Err(BareFault::WriteFault);
    };
    walk.index += 1;
    Ok(())
}

/// Gives the blocks of the last segment, whose text was read, and with them all rows that weren't given yet.
pub fn give_last<X: Port>(
    walk: &mut Walk,
    input: &mut PortIn<X>,
    read: &BareHead,
) -> Result<(), BareFault>
    requires sound { IsSound walk.old }
    requires next { IsNext walk.old read.now }
    requires last { read.now.head.last ≡ true }
    requires fits { 0 < walk.old.index → walk.old.first.last ≡ false }
    requires parts { AreParts walk.old.room.blocks.items read.now.head.blocks read.now.head.image.weights.shifts }
    ensures port { input.new.port.ghost_name ≡ input.old.port.ghost_name }
    ensures run { (wish : DecodeWish) (start : Outside) (r : SegmentsRead) (prefix text : List ℕ) (before : PartsInForce) →
        IsAt X.outside wish start r text input.old walk.old → IfKnown start (λ all. IsHeadOf wish r before walk.old.parts prefix read.now) →
        IfKnown start (λ all. IsNextText wish r before walk.old text read.now) → MatchResult result
        (λ _. HasEnded X.outside wish start input.new walk.new)
        (λ fault. DecodesBare wish start (X.outside input.new.port.now) (Err fault)) }
{
    let height = height_with(&read.head, walk.index, &walk.first);
    walk.picture.end_at(height);
    let count = read.head.blocks as usize;
    let Ok(()) = put_blocks(input.port, &mut walk.picture, &walk.room.blocks, count) else {
        return Err(BareFault::WriteFault);
    };
    walk.index += 1;
    Ok(())
}
