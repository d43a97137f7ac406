// The places of the numbers of a block.

ghost use Rattle.std.specs.Prelude.{◌≡◌, ◌<◌, ◌≤◌, ◌^◌, ℕ, ◌+◌, ◌*◌, ◌/◌, ◌%◌};
ghost use Rattle.base_122.specs.Weights.{band_place};
ghost use Rattle.wave_defs.specs.Blocks.{family_band, place_of as numbered_place};
ghost use Rattle.block_families.specs.Places.{named, place_in};
ghost use Rattle.block_families.specs.Scattering.{in_square};

use base_122::Band;

/// A place of a block row: its row within the block row, 0 at level 3, 0 to 1 at level 2 and 0 to 3 at
/// level 1, and its column over the whole width of the band (docs/formats.md, "Blocks").
#[derive(Clone, Copy, Debug, PartialEq, Eq)]
pub struct Place {
    pub band: Band,
    pub row: u32,
    pub column: u32,
}

// Returns the band of family 0, 1 or 2, which are HL, LH and HH, at a level.
#[inline(always)]
pub fn band_of(level: u8, family: u8) -> Band
    requires first { 1 ≤ level }
    requires last { level ≤ 3 }
    requires family { family < 3 }
    ensures { band_place result ≡ family_band level family }
{
    match (level, family) {
        (1, 0) => Band::Hl1,
        (1, 1) => Band::Lh1,
        (1, _) => Band::Hh1,
        (2, 0) => Band::Hl2,
        (2, 1) => Band::Lh2,
        (2, _) => Band::Hh2,
        (_, 0) => Band::Hl3,
        (_, 1) => Band::Lh3,
        _ => Band::Hh3,
    }
}

fn child_of(family: u8, child: u8, column: u32) -> Place
    requires family { family < 3 }
    requires child { child < 4 }
    requires column { column < 2 ^ 17 }
    ensures band { band_place result.band ≡ family_band 2 family }
    ensures row { result.row ≡ child / 2 }
    ensures column { result.column ≡ 2 * column + child % 2 }
{
    Place {
        band: band_of(2, family),
        row: u32::from(child / 2),
        column: 2 * column + u32::from(child % 2),
    }
}

fn grandchild_of(family: u8, child: u8, grandchild: u8, column: u32) -> Place
    requires family { family < 3 }
    requires child { child < 4 }
    requires grandchild { grandchild < 4 }
    requires column { column < 2 ^ 17 }
    ensures band { band_place result.band ≡ family_band 1 family }
    ensures row { result.row ≡ 2 * (child / 2) + grandchild / 2 }
    ensures column { result.column ≡ 4 * column + (2 * (child % 2) + grandchild % 2) }
{
    Place {
        band: band_of(1, family),
        row: u32::from(2 * (child / 2) + grandchild / 2),
        column: 4 * column + u32::from(2 * (child % 2) + grandchild % 2),
    }
}

// Returns the band of the number at position 0, 1, 2 or 3.
#[inline(always)]
pub fn top_band(position: u8) -> Band
    requires { position < 4 }
    ensures { band_place result ≡ (numbered_place position).band }
{
    if position == 0 {
        return Band::Ll3;
    }
    band_of(3, position - 1)
}

// Returns the first place of the square whose four numbers are from position 4 * square + 4 on: the children
// of each family, and then the grandchildren below each child.
#[inline(always)]
pub fn square_of(square: u8, column: u32) -> Place
    requires square { square < 15 }
    requires column { column < 2 ^ 17 }
    ensures { (k : ℕ) → k < 4 → in_square (named result) k ≡ place_in column (4 + 4 * square + k) }
{
    if square < 3 {
        return Place {
            band: band_of(2, square),
            row: 0,
            column: 2 * column,
        };
    }
    let child = square - 3;
    Place {
        band: band_of(1, child / 4),
        row: u32::from(2 * (child % 4 / 2)),
        column: 4 * column + u32::from(2 * (child % 2)),
    }
}

/// Returns the place of the number at a position of the block in this column (docs/formats.md, "Blocks").
///
/// `position` is below 64, `column` below 2^17.
#[tactic(auto, unfolding(wave_defs::specs::Blocks::place_of))]
pub fn place_of(position: u8, column: u32) -> Place
    requires position { position < 64 }
    requires column { column < 2 ^ 17 }
    ensures { named result ≡ place_in column position }
{
    match position {
        0 => Place {
            band: Band::Ll3,
            row: 0,
            column,
        },
        1..=3 => Place {
            band: band_of(3, position - 1),
            row: 0,
            column,
        },
        4..=15 => child_of((position - 4) / 4, position % 4, column),
        _ => grandchild_of(
            (position - 16) / 16,
            position % 16 / 4,
            position % 4,
            column,
        ),
    }
}
