// Bits that are read from octets.
ghost use Rattle.std.specs.Prelude.{◌≡◌, ◌<◌, ◌≤◌, ◌+◌, ◌*◌, ◌/◌, ◌%◌, ◌^◌, ℕ, IfSome};

use crate::bound::octets_within;
use crate::fault::{InFault, TextFault};
use crate::piece::{Piece, width_of};
use crate::prefix::Prefix;
use crate::source::OctetIn;
use crate::word::word_of;

/// A reader of the bits of a source, up to a bound (docs/formats.md, "Reading a segment"). It takes an octet
/// from the source with the octet's first bit, and takes none ahead.
#[derive(Drop)]
pub struct BitIn<'a, I> {
    input: &'a mut I,
    octet: u8,
    left: u8,
    used: u64,
    room: u64,
    ghost within: { left < 8 },
    ghost whole: { room % 8 ≡ left },
}

impl<'a, I: OctetIn> BitIn<'a, I> {
    ghost use Rattle.item_defs.specs.Items.{Item, fixed, zeros_to};
    ghost use Rattle.bit_pipe.specs.Answers.{IsBelow, TakesOne};
    ghost use Rattle.bit_pipe.specs.Prefixes.{Reports, IsTable, prefix_at, hand_of};
    ghost use Rattle.bit_pipe.specs.Bounds.{bound_of};
    ghost use Rattle.bit_pipe.specs.SourceState.{source_state, IsIn, BeginsIn, Takes, GivesBit, GivesItem};
    ghost use Rattle.bit_pipe.specs.Pieces.{GivesPiece};
    ghost use Rattle.bit_pipe.specs.Windows.{IsWindow, first_of};

    /// Returns a reader of the bits from here on. The bound is `limit` octets, or 2^32 octets if `limit` is 0.
    /// `before` octets of it were taken already.
    pub fn new(input: &'a mut I, limit: u64, before: u64) -> BitIn<'a, I>
        requires limit { limit ≤ 2 ^ 32 }
        requires bound { before ≤ bound_of limit }
        ensures same { result.input.ghost_name ≡ input.entry.ghost_name }
        ensures begins { BeginsIn input.old (bound_of limit) before (source_state result) }
        ensures is_in { IsIn (source_state result) }
    {
        let bound = octets_within(limit);
        BitIn {
            input,
            octet: 0,
            left: 0,
            used: 8 * before,
            room: 8 * (bound - before),
        }
    }

    /// Returns how many bits were taken, with those before.
    pub fn used(&self) -> u64
        ensures { result ≡ (source_state self.now).used }
    {
        self.used
    }

    /// Takes the next bit. Returns none at the input's end and at the bound.
    pub fn take(&mut self) -> Result<Option<bool>, InFault>
        requires { IsIn (source_state self.old) }
        ensures { GivesBit I.source result (source_state self.old) (source_state self.new) }
    {
        if self.room == 0 {
            return Ok(None);
        }
        if self.left > 0 {
            self.left -= 1;
            self.room -= 1;
            self.used += 1;
            return Ok(Some((self.octet >> self.left) & 1 == 1));
        }
        let Some(octet) = self.input.take()? else {
            return Ok(None);
        };
        self.octet = octet;
        self.left = 7;
        self.room -= 1;
        self.used += 1;
        Ok(Some((octet >> 7) & 1 == 1))
    }

    /// Returns the next bits, the first highest, if at least 56 of them are available.
    #[inline(always)]
    pub fn window(&self) -> Option<u64>
        requires { IsIn (source_state self.now) }
        ensures { IfSome result (IsWindow I.source (source_state self.now)) }
    {
        if self.room < 56 {
            return None;
        }
        let next = self.input.buffer().first_chunk::<8>()?;
        Some(word_of(self.octet, next) << (8 - self.left))
    }

    /// Takes the first of the bits that are available.
    #[inline(always)]
    pub fn take_window(&mut self, window: u64, count: u8)
        requires window { IsWindow I.source (source_state self.old) window }
        requires count { count ≤ 56 }
        requires bound { IsIn (source_state self.old) }
        ensures { Takes I.source (source_state self.old) (source_state self.new) (first_of count window) }
    {
        let past = 7 - self.left + count;
        let left = 7 - past % 8;
        self.input.consume(usize::from(past / 8));
        self.octet = ((window >> 1 >> (63 - count - left)) & 0xff) as u8;
        self.left = left;
        self.room -= u64::from(count);
        self.used += u64::from(count);
    }

    // Takes some bits, at least one and at most `most`, that are in one octet.
    fn take_piece(&mut self, most: u8) -> Result<Option<Piece>, InFault>
        requires some { 0 < most }
        requires bound { IsIn (source_state self.old) }
        ensures { GivesPiece I.source most result (source_state self.old) (source_state self.new) }
    {
        if self.room == 0 {
            return Ok(None);
        }
        if self.left > 0 {
            let count = width_of(most, self.left, self.room);
            let piece = Piece::first(self.octet, self.left, count);
            self.left -= count;
            self.room -= u64::from(count);
            self.used += u64::from(count);
            return Ok(Some(piece));
        }
        let Some(octet) = self.input.take()? else {
            return Ok(None);
        };
        let count = width_of(most, 8, self.room);
        self.octet = octet;
        self.left = 8 - count;
        self.room -= u64::from(count);
        self.used += u64::from(count);
        Ok(Some(Piece::first(octet, 8, count)))
    }

    /// Takes a number of `count` bits, highest first.
    #[inline]
    pub fn take_bits(&mut self, count: u8) -> Result<Option<u32>, InFault>
        requires count { count ≤ 32 }
        requires bound { IsIn (source_state self.old) }
        ensures { GivesItem I.source (fixed count) result (source_state self.old) (source_state self.new) }
    {
        let Some(window) = self.window() else {
            return self.take_pieces(count);
        };
        self.take_window(window, count);
        Ok(Some((window >> 1 >> (63 - count)) as u32))
    }

    // Takes a number octet by octet.
    #[cold]
    fn take_pieces(&mut self, count: u8) -> Result<Option<u32>, InFault>
        requires count { count ≤ 32 }
        requires bound { IsIn (source_state self.old) }
        ensures { GivesItem I.source (fixed count) result (source_state self.old) (source_state self.new) }
    {
        let mut value = 0u64;
        let mut taken = 0;
        while taken < count {
            let Some(piece) = self.take_piece(count - taken)? else {
                return Ok(None);
            };
            value = (value << piece.count) | u64::from(piece.value);
            taken += piece.count;
        }
        Ok(Some(value as u32))
    }

    /// Takes a unary part and returns the number of its zeros; `limit` zeros are not followed by a one.
    pub fn take_zeros(&mut self, limit: u16) -> Result<Option<u16>, InFault>
        requires { IsIn (source_state self.old) }
        ensures { GivesItem I.source (zeros_to limit) result (source_state self.old) (source_state self.new) }
    {
        for zeros in 0..limit {
            let Some(bit) = self.take()? else {
                return Ok(None);
            };
            if bit {
                return Ok(Some(zeros));
            }
        }
        Ok(Some(limit))
    }

    // Returns the bits that are left of the octet, and zeros after them.
    #[inline(always)]
    fn hand(&self) -> u8
        ensures { result ≡ hand_of self.now.left self.now.octet }
    {
        ((u16::from(self.octet) << (8 - self.left)) & 0xff) as u8
    }

    /// Takes an item with a table that has, for each octet, the item that the octet begins with, and returns the item's
    /// number. Returns none if the input or the bound ends before the item is whole.
    ///
    /// # Errors
    ///
    /// The faults of the input.
    #[inline]
    pub fn take_prefix(&mut self, prefixes: &[Prefix; 256]) -> Result<Option<u8>, TextFault>
        requires bound { IsIn (source_state self.old) }
        requires table { IsTable prefixes.now }
        ensures { (most : ℕ) (item : ℕ → Item) → Reports most item prefixes.now →
            TakesOne I.source (IsBelow most) item result (source_state self.old) (source_state self.new) }
    {
        let Some(window) = self.window() else {
            return self.take_prefix_octetwise(prefixes);
        };
        let prefix = prefixes[(window >> 56) as usize];
        self.take_window(window, prefix.len);
        Ok(Some(prefix.number))
    }

    // Takes an item octet by octet.
    #[cold]
    fn take_prefix_octetwise(&mut self, prefixes: &[Prefix; 256]) -> Result<Option<u8>, TextFault>
        requires bound { IsIn (source_state self.old) }
        requires table { IsTable prefixes.now }
        ensures { (most : ℕ) (item : ℕ → Item) → Reports most item prefixes.now →
            TakesOne I.source (IsBelow most) item result (source_state self.old) (source_state self.new) }
    {
        let prefix = prefixes[self.hand() as usize];
        if prefix.len > self.left {
            return self.take_across(prefixes);
        }
        self.left -= prefix.len;
        self.room -= u64::from(prefix.len);
        self.used += u64::from(prefix.len);
        Ok(Some(prefix.number))
    }

    // Takes an item whose last bits are in the next octet. Without them the bits that are left are no item's,
    // so the next octet is needed.
    #[inline]
    fn take_across(&mut self, prefixes: &[Prefix; 256]) -> Result<Option<u8>, TextFault>
        requires bound { IsIn (source_state self.old) }
        requires table { IsTable prefixes.now }
        requires across { self.old.left < (prefix_at prefixes.now (hand_of self.old.left self.old.octet)).len }
        ensures { (most : ℕ) (item : ℕ → Item) → Reports most item prefixes.now →
            TakesOne I.source (IsBelow most) item result (source_state self.old) (source_state self.new) }
    {
        let held = self.octet;
        let count = self.left;
        self.left = 0;
        self.room -= u64::from(count);
        self.used += u64::from(count);
        if self.room == 0 {
            return Ok(None);
        }
        let Some(octet) = self.input.take()? else {
            return Ok(None);
        };
        let word = 256 * u16::from(held) + u16::from(octet);
        let prefix = prefixes[((word >> count) % 256) as usize];
        let more = prefix.len - count;
        self.octet = octet;
        self.left = 8 - more;
        self.room -= u64::from(more);
        self.used += u64::from(more);
        Ok(Some(prefix.number))
    }
}
