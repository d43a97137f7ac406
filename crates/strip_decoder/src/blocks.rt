// The blocks of an image are passed to a sink, one after another in raster order.
ghost use Rattle.std.specs.Prelude.{◌≡◌, ◌≤◌, ◌<◌, ◌*◌, Some, length};
ghost use Rattle.base_122.specs.Sizes.{block_count};
ghost use Rattle.base_122.specs.Ranges.{IsGeometryInRange};
ghost use Rattle.strip_decoder.specs.Sinks.{IsBlock};
ghost use Rattle.strip_decoder.specs.WalkSteps.{walking, IsCurrent, HasRoom, PassesBlocks, HasAdvanced, AreBlocks, missing, held};

use crate::sink::BlockSink;
use crate::walk::Walk;
use port_122::{Failed, Port};

// Moves the walk to the place of the next block.
fn advance<S: BlockSink>(walk: &mut Walk<S>)
    requires range { IsGeometryInRange walk.old.geometry }
    requires column { walk.old.at.column < block_count walk.old.geometry.width }
    requires room { HasRoom 1 (walking walk.old) }
    ensures { HasAdvanced (walking walk.old) (walking walk.new) }
{
    walk.at.column += 1;
    if walk.at.column == walk.geometry.padded_width() / 8 {
        walk.at.column = 0;
        walk.at.row += 1;
    }
}

// Passes the next block as missing, and marks its block row as missing.
fn put_missing<S: BlockSink, X: Port>(walk: &mut Walk<S>, port: &mut X) -> Result<(), Failed>
    requires current { IsCurrent S.sink (walking walk.old) }
    requires room { HasRoom 1 (walking walk.old) }
    ensures { PassesBlocks S.sink result missing 1 (X.outside port.old) (X.outside port.new) (walking walk.old) (walking walk.new) }
{
    walk.damage.miss(walk.at.row);
    walk.sink.lose(port)?;
    advance(walk);
    Ok(())
}

/// Passes the next blocks as missing.
pub fn put_missing_blocks<S: BlockSink, X: Port>(
    walk: &mut Walk<S>,
    port: &mut X,
    count: u64,
) -> Result<(), Failed>
    requires current { IsCurrent S.sink (walking walk.old) }
    requires room { HasRoom count (walking walk.old) }
    ensures { PassesBlocks S.sink result missing count (X.outside port.old) (X.outside port.new) (walking walk.old) (walking walk.new) }
{
    for _ in 0..count {
        put_missing(walk, port)?;
    }
    Ok(())
}

// Passes the next block with these 64 numbers.
fn give_block<S: BlockSink, X: Port>(
    walk: &mut Walk<S>,
    port: &mut X,
    numbers: &[i32],
) -> Result<(), Failed>
    requires current { IsCurrent S.sink (walking walk.old) }
    requires room { HasRoom 1 (walking walk.old) }
    requires fits { IsBlock walk.old.geometry (Some numbers.now) }
    ensures { PassesBlocks S.sink result (λ _. Some numbers.now) 1 (X.outside port.old) (X.outside port.new) (walking walk.old) (walking walk.new) }
{
    walk.sink.put(port, numbers)?;
    advance(walk);
    Ok(())
}

/// Passes the next blocks with these numbers, 64 for each.
pub fn put_blocks<S: BlockSink, X: Port>(
    walk: &mut Walk<S>,
    port: &mut X,
    blocks: &[i32],
    count: usize,
) -> Result<(), Failed>
    requires current { IsCurrent S.sink (walking walk.old) }
    requires room { HasRoom count (walking walk.old) }
    requires whole { 64 * count ≤ length blocks.now }
    requires parts { AreBlocks count walk.old.geometry blocks.now }
    ensures { PassesBlocks S.sink result (held blocks.now) count (X.outside port.old) (X.outside port.new) (walking walk.old) (walking walk.new) }
{
    for place in 0..count {
        give_block(walk, port, &blocks[64 * place..64 * place + 64])?;
    }
    Ok(())
}
