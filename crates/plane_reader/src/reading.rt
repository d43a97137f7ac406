// The reader of the words of a gaggle in a stage, from a window of the text that is held while it lasts.

ghost use Rattle.std.specs.Prelude.{◌≡◌, ◌≤◌, ◌<◌, ◌+◌, ◌^◌, ◌&&◌, ◌==◌, ℕ, Bool, true, false, [], map, filter, Some, Ok};
ghost use Rattle.item_defs.specs.Scripts.{in_turn};
ghost use Rattle.bit_pipe.specs.SourceState.{source_state, IsIn};
ghost use Rattle.block_masks.specs.Masks.{Shows};
ghost use Rattle.std.specs.List.{list_any};
ghost use Rattle.item_defs.specs.Bits.{bit};
ghost use Rattle.plane_defs.specs.Spans.{span};
ghost use Rattle.plane_defs.specs.States.{State};
ghost use Rattle.plane_defs.specs.Steps.{some_one_where, ones_at};
ghost use Rattle.plane_defs.specs.WordScripts.{due_script, types_script};
ghost use Rattle.plane_reader.specs.Held.{Holds, Stays, point, has_left};

use crate::cursor::Cursor;
use crate::found::{Found, placed};
use crate::places::{PlaceTables, Rows, UNKNOWN};
use crate::types::{Group, take_types};
use crate::word::{count_of, take_due, take_flag};
use bit_pipe::{BitIn, OctetIn, TextFault};
use block_masks::{Gaggle, either, except, is_any, part, spread_first};

// The greatest number of bits of a word of types and its signs.
const MOST: u8 = 12;

// The number of positions of a half of a block.
pub(crate) const HALF: u8 = 32;

// Returns whether a word with its signs can be read from the window by this table: its option is known, and the window, which is moved on
// if it is too short, has their bits.
#[inline(always)]
fn is_ready<I: OctetIn>(cursor: &mut Cursor, input: &mut BitIn<I>, table: u8) -> bool
    requires is_in { IsIn (source_state input.old) }
    requires holds { Holds I.source (source_state input.old) cursor.old }
    ensures stays { Stays I.source (point (source_state input.old) cursor.old) (point (source_state input.new) cursor.new) }
    ensures is_in { IsIn (source_state input.new) }
    ensures holds { Holds I.source (source_state input.new) cursor.new }
    ensures known { result ≡ true → table ≡ 255 → ⊥ }
    ensures has { result ≡ true → has_left 12 cursor.new }
    ensures ready { (table ≡ 255 → ⊥) → has_left 12 cursor.old → result ≡ true }
{
    table != UNKNOWN && cursor.need(input, MOST)
}

// Returns whether a word of which at least one place must be 1, if that is wanted, has none. There is one test for both, which is never true of
// a valid text.
#[inline(always)]
fn is_missing(places: u64, is_wanted: bool) -> bool
    ensures { result ≡ (is_wanted && (places == 0)) }
{
    places | u64::from(!is_wanted) == 0
}

// What the words of a gaggle are read with in a stage, and what was found of the block that is read. Calls that read without the window are
// not inlined: they are passed a copy, so that the fields of this one can be in registers.
#[derive(Clone, Copy)]
pub(crate) struct Reading<'a> {
    pub tables: &'a PlaceTables,
    pub gaggle: Gaggle,
    rows: Rows,
    cursor: Cursor,
    pub found: Found,
}

impl<'a> Reading<'a> {
    ghost use Rattle.block_masks.specs.Gaggles.{AreOptions};
    ghost use Rattle.plane_reader.specs.Takes.{AreIn, IsState, Marks, OnSome};
    ghost use Rattle.plane_reader.specs.Held.{read_of};
    ghost use Rattle.plane_reader.specs.HeldTakes.{IsReading, HeldFlag, HeldState, HeldPlaces, HeldOnes, AreAmong, marked_script};

    // Returns what words are read with from here on, by the options of a gaggle that are known.
    #[inline(always)]
    pub fn open<I: OctetIn>(
        input: &BitIn<I>,
        tables: &'a PlaceTables,
        gaggle: Gaggle,
    ) -> Reading<'a>
        requires open { IsIn (source_state input.now) }
        requires known { AreOptions gaggle.options }
        ensures reading { IsReading I.source (source_state input.now) result }
        ensures tables { result.tables.now ≡ tables.now }
        ensures gaggle { result.gaggle ≡ gaggle }
        ensures none { read_of result.cursor ≡ [] }
    {
        Reading {
            tables,
            gaggle,
            rows: Rows::of(tables, &gaggle),
            cursor: Cursor::open(input),
            found: Found::NOTHING,
        }
    }

    // Takes from the input what was read of the window.
    #[inline(always)]
    pub fn close<I: OctetIn>(&mut self, input: &mut BitIn<I>)
        requires is_in { IsIn (source_state input.old) }
        requires holds { Holds I.source (source_state input.old) self.old.cursor }
        ensures stays { Stays I.source (point (source_state input.old) self.old.cursor) (point (source_state input.new) self.new.cursor) }
        ensures is_in { IsIn (source_state input.new) }
        ensures none { read_of self.new.cursor ≡ [] }
        ensures kept { read_of self.old.cursor ≡ [] → source_state input.new ≡ source_state input.old }
        ensures gaggle { self.new.gaggle ≡ self.old.gaggle }
    {
        self.cursor.close(input);
    }

    // Reads a raw bit without the window.
    #[inline(never)]
    fn flag_singly<I: OctetIn>(&mut self, input: &mut BitIn<I>) -> Result<Option<bool>, TextFault>
        requires reading { IsReading I.source (source_state input.old) self.old }
        ensures flag { HeldFlag I.source result (point (source_state input.old) self.old.cursor) (point (source_state input.new) self.new.cursor) }
        ensures gaggle { self.new.gaggle ≡ self.old.gaggle }
        ensures tables { self.new.tables ≡ self.old.tables }
        ensures found { self.new.found ≡ self.old.found }
        ensures reading { OnSome result (λ x. IsReading I.source (source_state input.new) self.new) }
        ensures holds { Holds I.source (source_state input.new) self.new.cursor }
        ensures is_in { IsIn (source_state input.new) }
    {
        self.cursor.close(input);
        let Some(flag) = take_flag(input)? else {
            return Ok(None);
        };
        self.cursor = Cursor::open(input);
        Ok(Some(flag))
    }

    // Reads a raw bit.
    #[inline(always)]
    pub fn flag<I: OctetIn>(&mut self, input: &mut BitIn<I>) -> Result<Option<bool>, TextFault>
        requires reading { IsReading I.source (source_state input.old) self.old }
        ensures flag { HeldFlag I.source result (point (source_state input.old) self.old.cursor) (point (source_state input.new) self.new.cursor) }
        ensures gaggle { self.new.gaggle ≡ self.old.gaggle }
        ensures tables { self.new.tables ≡ self.old.tables }
        ensures found { self.new.found ≡ self.old.found }
        ensures reading { OnSome result (λ x. IsReading I.source (source_state input.new) self.new) }
        ensures holds { Holds I.source (source_state input.new) self.new.cursor }
        ensures is_in { IsIn (source_state input.new) }
    {
        if !self.cursor.need(input, 1) {
            let mut singly = *self;
            let read = singly.flag_singly(input);
            *self = singly;
            return read;
        }
        let flag = self.cursor.rest >> 63 == 1;
        self.cursor.pass(1);
        Ok(Some(flag))
    }

    // Reads the word of these places without the window.
    #[inline(never)]
    fn places_singly<I: OctetIn>(
        &mut self,
        input: &mut BitIn<I>,
        due: u64,
    ) -> Result<Option<u64>, TextFault>
        requires reading { IsReading I.source (source_state input.old) self.old }
        requires due { due < 16 }
        ensures places { (s : State) (g : ℕ → Bool) (start count : ℕ) → AreIn self.old.gaggle s.options → count ≤ 4 → Shows due g start count →
            HeldPlaces I.source self.old.tables.now.words.book due g start count s result self.new.gaggle (point (source_state input.old) self.old.cursor)
            (point
            (source_state input.new) self.new.cursor) }
        ensures tables { self.new.tables ≡ self.old.tables }
        ensures found { self.new.found ≡ self.old.found }
        ensures reading { OnSome result (λ x. IsReading I.source (source_state input.new) self.new) }
        ensures holds { Holds I.source (source_state input.new) self.new.cursor }
        ensures is_in { IsIn (source_state input.new) }
    {
        self.cursor.close(input);
        let read = take_due(input, &self.tables.words, &mut self.gaggle, due);
        let Some(places) = read? else {
            return Ok(None);
        };
        self.rows = Rows::of(self.tables, &self.gaggle);
        self.cursor = Cursor::open(input);
        Ok(Some(places))
    }

    // Reads the word of these due places, and returns those whose bit is 1.
    #[inline(always)]
    pub fn places<I: OctetIn>(
        &mut self,
        input: &mut BitIn<I>,
        due: u64,
    ) -> Result<Option<u64>, TextFault>
        requires reading { IsReading I.source (source_state input.old) self.old }
        requires due { due < 16 }
        ensures places { (s : State) (g : ℕ → Bool) (start count : ℕ) → AreIn self.old.gaggle s.options → count ≤ 4 → Shows due g start count →
            HeldPlaces I.source self.old.tables.now.words.book due g start count s result self.new.gaggle (point (source_state input.old) self.old.cursor)
            (point
            (source_state input.new) self.new.cursor) }
        ensures tables { self.new.tables ≡ self.old.tables }
        ensures found { self.new.found ≡ self.old.found }
        ensures reading { OnSome result (λ x. IsReading I.source (source_state input.new) self.new) }
        ensures holds { Holds I.source (source_state input.new) self.new.cursor }
        ensures is_in { IsIn (source_state input.new) }
    {
        let table = self.rows.table_of(due);
        if !is_ready(&mut self.cursor, input, table) {
            let mut singly = *self;
            let read = singly.places_singly(input, due);
            *self = singly;
            return read;
        }
        let first = self.tables.first(table, self.cursor.rest);
        self.cursor.pass(first.len);
        Ok(Some(u64::from(first.places)))
    }

    // Reads the word of these due flags, of which at least one must be 1 if `is_wanted` is set, and returns those whose bit is 1.
    #[inline(always)]
    pub fn some_places<I: OctetIn>(
        &mut self,
        input: &mut BitIn<I>,
        due: u64,
        is_wanted: bool,
    ) -> Result<Option<u64>, TextFault>
        requires reading { IsReading I.source (source_state input.old) self.old }
        requires due { due < 16 }
        requires some { is_wanted ≡ true → 0 < due }
        ensures places { (s : State) (g : ℕ → Bool) (start count : ℕ) → AreIn self.old.gaggle s.options → count ≤ 4 → Shows due g start count →
            HeldOnes I.source (due_script self.old.tables.now.words.book g (some_one_where is_wanted) (span start count) s) start count s result self.new.gaggle
            (point (source_state input.old) self.old.cursor) (point (source_state input.new) self.new.cursor) }
        ensures among { OnSome result (AreAmong due) }
        ensures tables { self.new.tables ≡ self.old.tables }
        ensures found { self.new.found ≡ self.old.found }
        ensures reading { OnSome result (λ x. IsReading I.source (source_state input.new) self.new) }
        ensures holds { Holds I.source (source_state input.new) self.new.cursor }
        ensures is_in { IsIn (source_state input.new) }
    {
        let Some(places) = self.places(input, due)? else {
            return Ok(None);
        };
        if is_missing(places, is_wanted) {
            return Err(TextFault::FalseFlag);
        }
        Ok(Some(places))
    }

    // Reads the word of these due flags, of which the wanted ones must be 1, and returns those whose bit is 1.
    #[inline(always)]
    pub fn wanted_places<I: OctetIn>(
        &mut self,
        input: &mut BitIn<I>,
        due: u64,
        wanted: u64,
    ) -> Result<Option<u64>, TextFault>
        requires reading { IsReading I.source (source_state input.old) self.old }
        requires due { due < 16 }
        ensures places { (s : State) (g forced : ℕ → Bool) (start count : ℕ) → AreIn self.old.gaggle s.options → count ≤ 4 → Shows due g start count →
            Shows wanted (λ p. g p && forced p) start count →
            HeldOnes I.source (due_script self.old.tables.now.words.book g (ones_at (map forced (filter g (span start count))))
            (span start count) s) start count s result self.new.gaggle
            (point (source_state input.old) self.old.cursor) (point (source_state input.new) self.new.cursor) }
        ensures among { OnSome result (AreAmong due) }
        ensures tables { self.new.tables ≡ self.old.tables }
        ensures found { self.new.found ≡ self.old.found }
        ensures reading { OnSome result (λ x. IsReading I.source (source_state input.new) self.new) }
        ensures holds { Holds I.source (source_state input.new) self.new.cursor }
        ensures is_in { IsIn (source_state input.new) }
    {
        let Some(places) = self.places(input, due)? else {
            return Ok(None);
        };
        if is_any(except(places, wanted)) {
            return Err(TextFault::FalseFlag);
        }
        Ok(Some(places))
    }

    // Deals the bits that are next out to the positions of a mask of 32 from `start` on, the first bit to the first position, if the
    // window has 32 bits; returns whether it has. A table has what four positions get, so there is no branch.
    #[inline(always)]
    pub fn deal<I: OctetIn>(&mut self, input: &mut BitIn<I>, here: u64, start: u8) -> bool
        requires reading { IsReading I.source (source_state input.old) self.old }
        requires start { start ≤ 32 }
        requires few { here < 2 ^ 32 }
        ensures dealt { result ≡ true → (s : State) (g : ℕ → Bool) → IsState self.old.gaggle self.old.found s → Shows here g start 32 →
            HeldState {X = Unit {0}} I.source (in_turn (marked_script g) start 32 s) (Ok (Some tt)) self.new.gaggle self.new.found (point
            (source_state input.old) self.old.cursor) (point (source_state input.new) self.new.cursor) }
        ensures stays { result ≡ false → Stays I.source (point (source_state input.old) self.old.cursor) (point (source_state input.new) self.new.cursor) }
        ensures kept { result ≡ false → self.new.found ≡ self.old.found }
        ensures ready { has_left 32 self.old.cursor → result ≡ true }
        ensures gaggle { self.new.gaggle ≡ self.old.gaggle }
        ensures tables { self.new.tables ≡ self.old.tables }
        ensures reading { IsReading I.source (source_state input.new) self.new }
    {
        if !self.cursor.need(input, HALF) {
            return false;
        }
        let mut bits = self.found.bits;
        let mut rest = self.cursor.rest;
        let mut count = 0;
        for k in 0..8 {
            let at = start + 4 * k;
            let due = part(here, 4 * k, 4);
            let places = spread_first(due, (rest >> 60) as u8);
            bits = either(bits, placed(places, at));
            let width = count_of(due);
            rest <<= width;
            count += width;
        }
        self.found.bits = bits;
        self.found.add_raw(here, start);
        self.cursor.pass(count);
        true
    }

    // Reads the types of a group's due positions, and the signs of those that are 1, without the window.
    #[inline(never)]
    fn types_singly<I: OctetIn>(
        &mut self,
        input: &mut BitIn<I>,
        due: u64,
        group: Group,
    ) -> Result<Option<()>, TextFault>
        requires reading { IsReading I.source (source_state input.old) self.old }
        requires start { group.start ≤ 60 }
        requires few { group.count ≤ 4 }
        requires due { due < 2 ^ group.count }
        requires some { group.is_wanted ≡ true → 0 < due }
        ensures types { (s : State) (g : ℕ → Bool) → IsState self.old.gaggle self.old.found s → Shows due g group.start group.count →
            HeldState I.source (types_script self.old.tables.now.words.book g group.is_wanted
            (span group.start group.count) s) result self.new.gaggle self.new.found
            (point (source_state input.old) self.old.cursor) (point (source_state input.new) self.new.cursor) }
        ensures tables { self.new.tables ≡ self.old.tables }
        ensures raw { self.new.found.raw ≡ self.old.found.raw }
        ensures reading { OnSome result (λ x. IsReading I.source (source_state input.new) self.new) }
        ensures holds { Holds I.source (source_state input.new) self.new.cursor }
        ensures is_in { IsIn (source_state input.new) }
    {
        self.cursor.close(input);
        let read = take_types(
            input,
            &self.tables.words,
            &mut self.gaggle,
            &mut self.found,
            due,
            group,
        );
        let Some(()) = read? else {
            return Ok(None);
        };
        self.rows = Rows::of(self.tables, &self.gaggle);
        self.cursor = Cursor::open(input);
        Ok(Some(()))
    }

    // Reads the types of a group, of which these are due, and the signs of those that are 1.
    #[inline(always)]
    pub fn types<I: OctetIn>(
        &mut self,
        input: &mut BitIn<I>,
        due: u64,
        group: Group,
    ) -> Result<Option<()>, TextFault>
        requires reading { IsReading I.source (source_state input.old) self.old }
        requires start { group.start ≤ 60 }
        requires few { group.count ≤ 4 }
        requires some { group.is_wanted ≡ true → list_any (bit due) (span group.start group.count) ≡ true }
        ensures types { (s : State) (g : ℕ → Bool) → IsState self.old.gaggle self.old.found s → Marks due g group.start group.count →
            HeldState I.source (types_script self.old.tables.now.words.book g group.is_wanted
            (span group.start group.count) s) result self.new.gaggle self.new.found
            (point (source_state input.old) self.old.cursor) (point (source_state input.new) self.new.cursor) }
        ensures tables { self.new.tables ≡ self.old.tables }
        ensures raw { self.new.found.raw ≡ self.old.found.raw }
        ensures reading { OnSome result (λ x. IsReading I.source (source_state input.new) self.new) }
        ensures holds { Holds I.source (source_state input.new) self.new.cursor }
        ensures is_in { IsIn (source_state input.new) }
    {
        let here = part(due, group.start, group.count);
        let table = self.rows.table_of(here);
        if !is_ready(&mut self.cursor, input, table) {
            let mut singly = *self;
            let again = Group {
                start: group.start,
                count: group.count,
                is_wanted: group.is_wanted,
            };
            let read = singly.types_singly(input, here, again);
            *self = singly;
            return read;
        }
        let first = self.tables.first(table, self.cursor.rest);
        let places = u64::from(first.places);
        if is_missing(places, group.is_wanted) {
            self.cursor.pass(first.len);
            return Err(TextFault::FalseFlag);
        }
        let signs = ((self.cursor.rest << first.len) >> 60) as u8;
        self.found.add_bits(places, group.start);
        self.found
            .add_minus(spread_first(places, signs), group.start);
        self.cursor.pass(first.signed_len);
        Ok(Some(()))
    }
}
