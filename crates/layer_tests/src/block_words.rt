// Blocks of the data: `N*` begins N blocks of zeros, and `POSITION=NUMBER` sets a number in each of these.
ghost use Rattle.std.specs.Prelude.{◌≡◌, ◌%◌, vec_len, IfOk};

use crate::case::{Refusal, number, signed};
use std::alloc::{AllocError, Global};

fn add_zeros(blocks: &mut Vec<i32>, count: u64) -> Result<(), AllocError> {
    for _ in 0..count {
        blocks.push(0)?;
    }
    Ok(())
}

// Sets the number at a position of each block from a place on.
fn set_each(blocks: &mut Vec<i32>, from: usize, position: usize, number: i32) {
    for place in from..blocks.len() {
        if place % 64 == position {
            blocks[place] = number;
        }
    }
}

pub(crate) fn blocks_in(alloc: Global, words: &[&str]) -> Result<Vec<i32>, Refusal>
    ensures { IfOk result (λ blocks. vec_len blocks % 64 ≡ 0) }
{
    let mut blocks = Vec::new(alloc);
    let mut first = 0;
    for word in words.iter() {
        if let Some(count) = word.strip_suffix('*') {
            first = blocks.len();
            add_zeros(&mut blocks, 64 * number(count, 1, 100)?)?;
        } else if let Some((position, value)) = word.split_once('=') {
            let position = number(position, 0, 63)? as usize;
            let value = signed(value, u32::MAX)?;
            set_each(&mut blocks, first, position, value);
        } else {
            return Err(Refusal::Words);
        }
    }
    if blocks.len() % 64 != 0 {
        return Err(Refusal::Words);
    }
    Ok(blocks)
}
