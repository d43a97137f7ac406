// Places of the numbers of a block, and blocks that are gathered from bands whose numbers are their places.
ghost use Rattle.std.specs.Prelude.{◌≡◌, ◌<◌, ◌≤◌, ◌+◌, ◌*◌, ℕ, pos, true, slice_index_or, unsigned_abs};
ghost use Rattle.base_122.specs.Weights.{band_place};
ghost use Rattle.wave_defs.specs.Blocks.{block_side};

use crate::case::{Case, Refusal};
use crate::shown::shown_list;
use base_122::{Band, Weights};
use block_families::{BandRows, BandSource, Place, gather, place_of};

// A block row of 2 blocks. Each band has 40 cells of its own, 8 for a row.
#[derive(Drop)]
struct Named {
    cells: [i32; 400],
}

impl BandSource for Named {
    ghost use Rattle.std.specs.Prelude.{slice_index_or};

    ghost columns = { λ s. 2 };

    ghost valid = { λ s. true };

    ghost number = { λ s p. slice_index_or s.cells (40 * p.band + 8 * p.row + p.column) (pos 0) };

    fn value(&self, place: Place) -> i32 {
        self.cells[40 * place.band as usize + 8 * place.row as usize + place.column as usize]
    }
}

fn width_of(band: Band) -> usize
    ensures { result ≡ 2 * block_side (band_place band) }
{
    match band {
        Band::Hh1 | Band::Hl1 | Band::Lh1 => 8,
        Band::Hh2 | Band::Hl2 | Band::Lh2 => 4,
        Band::Hh3 | Band::Hl3 | Band::Lh3 | Band::Ll3 => 2,
    }
}

impl BandRows for Named {
    fn row(&self, band: Band, row: u32) -> &[i32] {
        let start = 40 * band as usize + 8 * row as usize;
        &self.cells[start..start + width_of(band)]
    }
}

// Returns bands in which each cell encodes its place.
fn each_named() -> Named
    ensures { (i : ℕ) → unsigned_abs (slice_index_or result.cells i (pos 0)) ≤ 400 }
{
    let mut cells = [0i32; 400];
    for i in 0..400usize {
        cells[i] = i as i32;
    }
    Named { cells }
}

// The place of the number at a `position` of the block in a `column`.
fn place(case: &Case) -> Result<String, Refusal> {
    let (position, column) = (case.named("position"), case.named("column"));
    if position >= 64 || column >= 1 << 17 {
        return Err(Refusal::Words);
    }
    let place = place_of(position as u8, column);
    let (band, row, column) = (place.band, place.row, place.column);
    Ok(format!(in case.alloc; "{band:?} {row} {column}")?)
}

// Gathers the block in a column of the named bands.
fn gather_named(column: u32) -> [i32; 64]
    requires { column < 2 }
{
    let mut block = [0; 64];
    gather(&each_named(), column, &Weights::usual(), &mut block);
    block
}

// A `position`: its place. Or the block in a `column` of bands whose numbers are 40 times that of their band, 8 times that of their row
// and that of their column.
pub(crate) fn answer(case: &Case) -> Result<String, Refusal> {
    if case.subject() == "place" {
        return place(case);
    }
    let block = gather_named(case.named("column").min(1));
    shown_list(case.alloc, Some(&block[..]))
}
