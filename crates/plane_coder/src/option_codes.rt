// The codes of a gaggle.

ghost use Rattle.std.specs.Prelude.{◌≡◌, ◌<◌, ◌≤◌, ◌/◌, ◌%◌, ℕ, [], slice_index_or};
ghost use Rattle.block_masks.specs.Gaggles.{AreOptions};
ghost use Rattle.base_122.specs.Profile.{no_code};
ghost use Rattle.plane_coder.specs.Coding.{IsCodeOf, AreCodesUnder, row_of, option_for};
ghost use Rattle.plane_coder.specs.Picked.{IsPacked};

use crate::tables::CodeTables;
use base_122::Code;

// Returns the index of the codes of each length of words from 0 on, each under one of its options.
#[inline(always)]
fn rows_of(options: [u8; 3]) -> [u8; 5]
    requires { AreOptions options }
    ensures rows { (n : ℕ) → n ≤ 4 → slice_index_or result n 0 ≡ row_of n (option_for options n) }
    ensures within { (n : ℕ) → n ≤ 4 → slice_index_or result n 0 < 11 }
{
    [0, 1, 2 + options[0], 4 + options[1], 7 + options[2]]
}

// Puts the code of each word as it is picked, under the option of its length.
#[inline(always)]
pub(crate) fn put_codes(codes: &mut [Code; 80], tables: &CodeTables, options: [u8; 3])
    requires { AreOptions options }
    ensures { AreCodesUnder tables.now.book options codes.new }
{
    let rows = rows_of(options);
    for n in 0..5usize {
        codes[16 * n..16 * n + 16].copy_from_slice(&tables.rows[rows[n] as usize]);
    }
}

// The tables with the options of a gaggle, and the codes under them: each word has its place, as it is picked.
#[derive(Drop)]
pub(crate) struct OptionCodes<'a> {
    pub tables: &'a CodeTables,
    pub options: [u8; 3],
    codes: &'a [Code; 80],
    ghost known: { AreOptions options },
    ghost coded: { AreCodesUnder tables.now.book options codes.now },
}

impl<'a> OptionCodes<'a> {
    #[inline(always)]
    pub fn new(tables: &'a CodeTables, options: [u8; 3], codes: &'a [Code; 80]) -> OptionCodes<'a>
        requires known { AreOptions options }
        requires coded { AreCodesUnder tables.now.book options codes.now }
        ensures tables { result.tables.now ≡ tables.now }
        ensures options { result.options ≡ options }
    {
        OptionCodes {
            tables,
            options,
            codes,
        }
    }

    // Returns the code of a picked word. Each part is read by itself, so that neither has to be shifted out of both.
    #[inline(always)]
    pub fn code(&self, word: u8) -> Code
        requires { IsPacked word }
        ensures { IsCodeOf self.now.tables.now.book (word / 16) (option_for self.now.options (word / 16)) (word % 16) result }
    {
        Code {
            bits: self.codes[word as usize].bits,
            len: self.codes[word as usize].len,
        }
    }
}
