// Bits that are put into octets, and taken from octets.
ghost use Rattle.std.specs.Prelude.{◌≡◌, ◌≢◌, ◌<◌, ◌≤◌, true, IfOk, IfSome};
ghost use Rattle.bit_pipe.specs.SourceState.{source_state, IsIn};
ghost use Rattle.bit_pipe.specs.declared.fault.PutFault.TheVariants.{WriteFault};
ghost use Rattle.bit_pipe.specs.Slices.{slice_sink, filling};
ghost use Rattle.bit_pipe.specs.SinkState.{sink_state, IsOpen};

use crate::bit_words::octets_in;
use crate::case::{Case, Refusal, number, push};
use crate::shown::Hex;
use bit_pipe::{BitIn, BitOut, InFault, OctetIn, PutFault, SliceIn, SliceOut};

// Bits that are put by one call.
#[derive(Clone, Copy)]
struct Bits {
    value: u64,
    len: u8,
    ghost short: { len < 64 },
}

fn bits_in(word: &str) -> Result<Bits, Refusal> {
    let len = word.len();
    match u64::from_str_radix(word, 2) {
        Ok(value) if len < 64 => Ok(Bits {
            value,
            len: len as u8,
        }),
        _ => Err(Refusal::Words),
    }
}

// Puts bits by the call for their number.
#[tactic(auto, using(crate::proofs::Open::open_unless, crate::proofs::Open::bound_unless))]
fn put_bits(out: &mut BitOut<SliceOut>, bits: Bits) -> Result<(), PutFault>
    requires { IsOpen (sink_state slice_sink out.old) }
    ensures is_open { result ≢ Err WriteFault → IsOpen (sink_state slice_sink out.new) }
    ensures bound { result ≢ Err WriteFault → (sink_state slice_sink out.new).bound ≡ (sink_state slice_sink out.old).bound }
{
    if bits.len == 1 {
        return out.put(bits.value == 1);
    }
    if bits.value == 0 {
        return out.put_zeros(u16::from(bits.len));
    }
    if bits.len <= 32 {
        return out.put_bits((bits.value & 0xffff_ffff) as u32, bits.len);
    }
    out.put_long(bits.value, bits.len)
}

// Puts the bits of all words, until they stop at the limit. Returns whether none failed to be written.
fn put_each(out: &mut BitOut<SliceOut>, words: &[Bits]) -> bool
    requires { IsOpen (sink_state slice_sink out.old) }
    ensures is_open { result ≡ true → IsOpen (sink_state slice_sink out.new) }
    ensures bound { result ≡ true → (sink_state slice_sink out.new).bound ≡ (sink_state slice_sink out.old).bound }
{
    for place in 0..words.len() {
        match put_bits(out, words[place]) {
            Ok(()) => {}
            Err(PutFault::Stopped) => return true,
            Err(PutFault::WriteFault) => return false,
        }
    }
    true
}

// Puts the bits of all words, up to a limit in octets.
fn put_octets(sink: &mut SliceOut, limit: u64, words: &[Bits]) -> Result<u64, PutFault>
    requires none { (filling sink.old).len ≡ 0 }
    requires limit { limit ≤ 64 }
{
    let mut out = BitOut::new(sink, limit, 0);
    if !put_each(&mut out, words) {
        return Err(PutFault::WriteFault);
    }
    Ok(out.end(1, false)?)
}

// Puts the bits of all words up to eight octets, padded to pairs of octets, and filled to eight if that is wanted.
fn put_pairs(sink: &mut SliceOut, words: &[Bits], fill: bool) -> Result<u64, PutFault>
    requires { (filling sink.old).len ≡ 0 }
{
    let mut out = BitOut::new(sink, 8, 0);
    if !put_each(&mut out, words) {
        return Err(PutFault::WriteFault);
    }
    Ok(out.end(2, fill)?)
}

// Returns whether octets are as they were.
fn is_unused(octets: &[u8]) -> bool {
    for octet in octets.iter() {
        if *octet != 0xaa {
            return false;
        }
    }
    true
}

// The data are the bits of each call. The octets after those that were put are as they were.
pub(crate) fn put(case: &Case) -> Result<String, Refusal> {
    let limit = case.named("limit", 1, 64)?;
    let room = case.named("room", 0, 64)? as usize;
    let mut words = Vec::new(case.alloc);
    for word in case.data.iter() {
        let bits = bits_in(word)?;
        push(&mut words, bits)?;
    }
    let mut octets = [0xaa; 64];
    let mut sink = SliceOut::new(&mut octets[..room]);
    let put = if case.has("pairs") {
        put_pairs(&mut sink, words.as_slice(), case.has("filled"))
    } else {
        put_octets(&mut sink, limit, words.as_slice())
    };
    let len = sink.len();
    if len > 64 || !is_unused(&octets[len..]) {
        return Err(Refusal::Words);
    }
    let shown = Hex(&octets[..len]);
    Ok(format!(in case.alloc; "{put:?} {shown}")?)
}

// What is taken by one call: a bit, a number of this many bits, or zeros before a one, at most this many.
#[derive(Clone, Copy)]
enum Item {
    Bit,
    Number(u8),
    Zeros(u16),
}

fn item_of(word: &str) -> Result<Item, Refusal> {
    if word == "bit" {
        return Ok(Item::Bit);
    }
    if let Some(most) = word.strip_prefix("zeros<") {
        return Ok(Item::Zeros(number(most, 0, 1024)? as u16));
    }
    Ok(Item::Number(number(word, 0, 255)? as u8))
}

#[tactic(auto, using(bit_pipe::proofs::Taking::in_after_bit, bit_pipe::proofs::Taking::in_after_item))]
fn take_item(input: &mut BitIn<SliceIn>, item: Item) -> Result<Option<u32>, InFault>
    requires { IsIn (source_state input.old) }
    ensures { IfOk result (λ taken. IfSome taken (λ n. IsIn (source_state input.new))) }
{
    match item {
        Item::Bit => match input.take()? {
            Some(bit) => Ok(Some(u32::from(bit))),
            None => Ok(None),
        },
        Item::Number(count) => input.take_bits(count.min(32)),
        Item::Zeros(most) => match input.take_zeros(most)? {
            Some(zeros) => Ok(Some(u32::from(zeros))),
            None => Ok(None),
        },
    }
}

// What the calls gave, how many bits were taken, and which octet follows them.
#[derive(Clone, Copy)]
struct Taken {
    given: [Option<u32>; 8],
    used: u64,
    next: Result<Option<u8>, InFault>,
}

fn take_items(octets: &[u8], limit: u64, items: &[Item]) -> Taken
    requires { limit ≤ 64 }
{
    let mut source = SliceIn::new(octets);
    let mut input = BitIn::new(&mut source, limit, 0);
    let mut given = [None; 8];
    for place in 0..items.len().min(8) {
        match take_item(&mut input, items[place]) {
            Ok(Some(number)) => given[place] = Some(number),
            _ => break,
        }
    }
    let used = input.used();
    Taken {
        given,
        used,
        next: source.take(),
    }
}

// The data are the octets, and the words after `items` what is taken in turn, until the octets or the limit end.
pub(crate) fn take(case: &Case) -> Result<String, Refusal> {
    let limit = case.named("limit", 0, 64)?;
    let octets = octets_in(case.alloc, case.data)?;
    let mut items = Vec::new(case.alloc);
    for word in case.words_after("items") {
        let item = item_of(word)?;
        push(&mut items, item)?;
    }
    let taken = take_items(octets.as_slice(), limit, items.as_slice());
    let mut shown = String::new(case.alloc);
    for number in taken.given.iter() {
        if let Some(number) = number {
            shown = format!(in case.alloc; "{shown}{number} ")?;
        }
    }
    let (used, next) = (taken.used, taken.next);
    Ok(format!(in case.alloc; "{shown}used {used}, next {next:?}")?)
}
