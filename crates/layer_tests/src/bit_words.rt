// Bits of the data: binary words, octets in hexadecimal, and zeros by their number.
ghost use Rattle.std.specs.Prelude.{◌<◌, ◌≤◌, IfOk};

use crate::case::{Refusal, number};
use std::alloc::{AllocError, Global};

// Octets that end with the last of some bits, and the number of bits before these.
#[derive(Drop)]
pub(crate) struct Aligned {
    pub octets: Vec<u8>,
    pub lead: u8,
    ghost low: { lead < 8 },
}

// Returns the bits of a word: of `0x..` four for each digit, of `0*N` that number of zeros, and of another word one for each digit.
fn put_word(bits: &mut Vec<bool>, word: &str) -> Result<(), Refusal> {
    if let Some(digits) = word.strip_prefix("0x") {
        return put_digits(bits, digits, 16);
    }
    if let Some(count) = word.strip_prefix("0*") {
        for _ in 0..number(count, 0, 1024)? {
            put_bit(bits, false)?;
        }
        return Ok(());
    }
    put_digits(bits, word, 2)
}

fn put_bit(bits: &mut Vec<bool>, bit: bool) -> Result<(), AllocError> {
    bits.push(bit)?;
    Ok(())
}

fn put_digit(bits: &mut Vec<bool>, digit: u8, count: u8) -> Result<(), AllocError>
    requires { count ≤ 4 }
{
    for place in 0..count {
        put_bit(bits, digit >> (count - 1 - place) & 1 == 1)?;
    }
    Ok(())
}

fn put_digits(bits: &mut Vec<bool>, digits: &str, base: u8) -> Result<(), Refusal> {
    for letter in digits.bytes() {
        let digit = match letter {
            b'0'..=b'9' => letter - b'0',
            b'a'..=b'f' => letter - b'a' + 10,
            _ => return Err(Refusal::Words),
        };
        if digit >= base {
            return Err(Refusal::Words);
        }
        put_digit(bits, digit, if base == 2 { 1 } else { 4 })?;
    }
    Ok(())
}

// Returns the bits of some words.
fn bits_of(alloc: Global, words: &[&str]) -> Result<Vec<bool>, Refusal> {
    let mut bits = Vec::new(alloc);
    for word in words.iter() {
        put_word(&mut bits, word)?;
    }
    Ok(bits)
}

// Returns octets that end with these bits.
fn align(alloc: Global, bits: &[bool]) -> Result<Aligned, AllocError> {
    let lead = ((8 - bits.len() % 8) % 8) as u8;
    let mut octets = Vec::new(alloc);
    let (mut octet, mut filled) = (0u8, lead);
    for bit in bits.iter() {
        octet = octet << 1 | u8::from(*bit);
        filled = if filled < 7 { filled + 1 } else { 0 };
        if filled == 0 {
            octets.push(octet)?;
        }
    }
    Ok(Aligned { octets, lead })
}

// Returns octets that end with the bits of some words.
pub(crate) fn aligned_in(alloc: Global, words: &[&str]) -> Result<Aligned, Refusal> {
    let bits = bits_of(alloc, words)?;
    Ok(align(alloc, bits.as_slice())?)
}

// Returns the octets of some words, which have no part of an octet.
pub(crate) fn octets_in(alloc: Global, words: &[&str]) -> Result<Vec<u8>, Refusal> {
    let aligned = aligned_in(alloc, words)?;
    if aligned.lead != 0 {
        return Err(Refusal::Words);
    }
    Ok(aligned.octets)
}
