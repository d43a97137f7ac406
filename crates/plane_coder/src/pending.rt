// The bits of a gaggle that are not put yet.

ghost use Rattle.std.specs.Prelude.{◌≡◌, ◌+◌, ◌-◌, ◌/◌, ◌%◌, ◌≤◌, ◌<◌, ◌^◌, ◌++◌, ◌==◌, [], ◌∷◌, ℕ, false, true, slice_index_or, slice_set};
ghost use Rattle.std.specs.Bool.{OnTrue};
ghost use Rattle.item_defs.specs.Bits.{bits_of};
ghost use Rattle.item_defs.specs.Items.{item_bits};
ghost use Rattle.plane_defs.specs.Codes.{option_item, identifier_width as width_of, identifier_number as number_of};
ghost use Rattle.base_122.specs.declared.book.Book.{Book as BookValue};
ghost use Rattle.plane_defs.specs.Spelled.{option_of};
ghost use Rattle.block_masks.specs.Gaggles.{AreOptions};
ghost use Rattle.plane_coder.specs.Picked.{IsPacked, ArePacked, word_of, raws_of, entries_of};
ghost use Rattle.plane_coder.specs.Coding.{unopened, closed_in, word_bits, option_for};
ghost use Rattle.bit_pipe.specs.SinkState.{Writes, IsReady};

use crate::option_codes::OptionCodes;
use crate::plane_masks::Typed;
use bit_pipe::{BitOut, OctetOut, PutFault};
use block_masks::Gaggle;

fn identifier_width(length: u8) -> u8
    ensures { result ≡ width_of length }
{
    if length < 3 { 1 } else { 2 }
}

// Returns the identifier of an option: that of the uncoded one is all ones.
fn identifier_number(length: u8, option: u8) -> u8
    requires short { 2 ≤ length }
    requires long { length ≤ 4 }
    requires known { option < length }
    ensures value { result ≡ number_of length option }
    ensures fits { result < 2 ^ width_of length }
{
    if length == 3 && option == 2 {
        return 3;
    }
    option
}

// Returns the lengths of which no word was sent: bit n is for words of n bits.
fn closed_of(sent: [bool; 3]) -> u64
    ensures { result ≡ closed_in sent }
{
    4 * u64::from(!sent[0]) + 8 * u64::from(!sent[1]) + 16 * u64::from(!sent[2])
}

// Up to 63 bits that are collected, and the state of the gaggle after them. It is a value, and nothing refers to one while words are added, so
// its bits can be in registers.
#[derive(Clone, Copy)]
pub(crate) struct PendingBits {
    value: u64,
    count: u8,
    pub gaggle: Gaggle,
    // The lengths of words before which an identifier is due: bit n is for words of n bits.
    closed: u64,
    ghost fits: { value < 2 ^ count },
    ghost most: { count + unopened gaggle.sent ≤ 63 },
    ghost known: { AreOptions gaggle.options },
    ghost closed_known: { closed ≡ closed_in gaggle.sent },
}

impl PendingBits {
    ghost use Rattle.plane_coder.specs.Appends.{Appends, load, said, Opens};
    ghost use Rattle.plane_coder.specs.Kept.{bits_in};

    // Returns a collection without bits.
    #[inline(always)]
    pub fn new(gaggle: Gaggle) -> PendingBits
        requires { AreOptions gaggle.options }
        ensures gaggle { result.gaggle ≡ gaggle }
        ensures silent { result.count ≡ 0 }
    {
        PendingBits {
            value: 0,
            count: 0,
            gaggle,
            closed: closed_of(gaggle.sent),
        }
    }

    #[inline(always)]
    fn push(&mut self, value: u8, count: u8)
        requires few { count ≤ 8 }
        requires room { load self.old + count ≤ 63 }
        requires fits { value < 2 ^ count }
        ensures said { said self.new ≡ said self.old ++ bits_of count value }
        ensures count { self.new.count ≡ self.old.count + count }
        ensures gaggle { self.new.gaggle ≡ self.old.gaggle }
    {
        self.value = (self.value << count) | u64::from(value);
        self.count += count;
    }

    // Returns the bits with the identifier of an option after them, before the first word of its length.
    #[cold]
    #[inline(never)]
    fn opened(self, length: u8) -> PendingBits
        requires short { 2 ≤ length }
        requires long { length ≤ 4 }
        requires new { slice_index_or self.gaggle.sent (length - 2) false ≡ false }
        ensures said { said result ≡ said self ++ item_bits (option_item length (option_of self.gaggle.options length)) }
        ensures load { load result ≡ load self }
        ensures sent { result.gaggle.sent ≡ slice_set self.gaggle.sent (length - 2) true }
        ensures options { result.gaggle.options ≡ self.gaggle.options }
    {
        let place = length as usize - 2;
        let option = self.gaggle.options[place];
        let mut next = self;
        next.gaggle.sent[place] = true;
        next.closed = closed_of(next.gaggle.sent);
        next.push(identifier_number(length, option), identifier_width(length));
        next
    }

    // Adds the identifier before a word of this length, if the word is the first.
    #[inline(always)]
    fn open_first(&mut self, length: u8)
        requires { length ≤ 4 }
        ensures opens { Opens length self.old self.new }
        ensures load { load self.new ≡ load self.old }
    {
        if self.closed == 0 {
            return;
        }
        if (self.closed >> length) % 2 == 0 {
            return;
        }
        *self = self.opened(length);
    }

    // Adds the code of a word.
    #[inline(always)]
    fn coded(&mut self, option_codes: &OptionCodes, word: u8)
        requires packed { IsPacked word }
        requires room { load self.old + 8 ≤ 63 }
        ensures said { said self.new ≡ said self.old ++ word_bits option_codes.now.tables.now.book (word / 16)
            (option_for option_codes.now.options (word / 16)) (word % 16) }
        ensures gaggle { self.new.gaggle ≡ self.old.gaggle }
        ensures load { load self.new ≤ load self.old + 8 }
    {
        let code = option_codes.code(word);
        self.push(code.bits, code.len);
    }

    // Adds a word.
    #[inline(always)]
    pub fn word(&mut self, option_codes: &OptionCodes, word: u8)
        requires packed { IsPacked word }
        requires same { option_codes.now.options ≡ self.old.gaggle.options }
        requires room { load self.old + 8 ≤ 63 }
        ensures { Appends option_codes.now.tables.now.book self.old self.new (word_of word ∷ []) 8 }
    {
        self.open_first(word / 16);
        self.coded(option_codes, word);
    }

    // Adds raw bits.
    #[inline(always)]
    pub fn raws(&mut self, raws: u8)
        requires packed { IsPacked raws }
        requires room { load self.old + 4 ≤ 63 }
        ensures raws { (book : BookValue) → Appends book self.old self.new (raws_of raws) 4 }
        ensures gaggle { self.new.gaggle ≡ self.old.gaggle }
    {
        self.push(raws % 16, raws / 16);
    }

    // Adds a word of types and the signs after it.
    #[inline(always)]
    pub fn typed(&mut self, option_codes: &OptionCodes, typed: Typed)
        requires packed { ArePacked typed }
        requires same { option_codes.now.options ≡ self.old.gaggle.options }
        requires room { load self.old + 12 ≤ 63 }
        ensures { Appends option_codes.now.tables.now.book self.old self.new (entries_of typed) 12 }
    {
        let word = typed.word();
        let signs = typed.signs();
        self.word(option_codes, word);
        self.raws(signs);
    }

    // Returns whether no identifier is due before any word.
    #[inline(always)]
    pub fn are_open(&self) -> bool
        ensures { result ≡ (self.now.closed == 0) }
    {
        self.closed == 0
    }

    // Adds a word of types and the signs after it, if no identifier is due before any word.
    #[inline(always)]
    pub fn typed_open(&mut self, option_codes: &OptionCodes, typed: Typed)
        requires none { self.old.closed ≡ 0 }
        requires packed { ArePacked typed }
        requires same { option_codes.now.options ≡ self.old.gaggle.options }
        requires room { load self.old + 12 ≤ 63 }
        ensures appends { Appends option_codes.now.tables.now.book self.old self.new (entries_of typed) 12 }
        ensures none { self.new.closed ≡ 0 }
    {
        self.coded(option_codes, typed.word());
        self.raws(typed.signs());
    }

    // Returns whether there is room for a word and the bits after it.
    #[inline(always)]
    pub fn has_room(&self) -> bool
        ensures { OnTrue result (load self.now + 12 ≤ 63) }
    {
        self.count <= 46
    }

    // Returns the bits with a 1 before them, so that none are left.
    #[inline(always)]
    pub fn seal(&mut self) -> u64
        ensures bits { bits_in result ≡ said self.old }
        ensures silent { self.new.count ≡ 0 }
        ensures gaggle { self.new.gaggle ≡ self.old.gaggle }
    {
        let mask = self.value + (1 << self.count);
        self.value = 0;
        self.count = 0;
        mask
    }

    // Puts the bits, so that none are left.
    #[inline(always)]
    pub fn put<O: OctetOut>(&mut self, out: &mut BitOut<O>) -> Result<(), PutFault>
        requires { IsReady O.sink out.old }
        ensures puts { Writes O.sink result out.old out.new (said self.old) }
        ensures silent { self.new.count ≡ 0 }
        ensures gaggle { self.new.gaggle ≡ self.old.gaggle }
    {
        let (value, count) = (self.value, self.count);
        self.value = 0;
        self.count = 0;
        out.put_long(value, count)
    }
}
