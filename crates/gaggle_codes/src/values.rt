// The bits of mapped values.
ghost use Rattle.std.specs.Prelude.{◌≡◌, ◌<◌, ◌≤◌, ◌+◌, ◌-◌, ◌^◌, ◌++◌, ◌∷◌, [], true, false, flat_map};
ghost use Rattle.item_defs.specs.Bits.{bits_of, copies};
ghost use Rattle.bit_pipe.specs.SinkState.{IsReady, Writes};
ghost use Rattle.number_defs.specs.Gaggles.{identifier_bits};
ghost use Rattle.gaggle_codes.specs.GaggleBits.{unary_bits, rest_bits, value_bits};

use crate::choice::UNCODED;
use bit_pipe::{BitOut, OctetOut, PutFault};

// Returns the number of bits of an identifier.
pub(crate) fn option_bits(bits: u8) -> u8
    ensures is { result ≡ identifier_bits bits }
    ensures few { result ≤ 4 }
{
    match bits {
        0..=2 => 1,
        3..=4 => 2,
        5..=8 => 3,
        _ => 4,
    }
}

// Puts an option by its number: k, or all ones of whichever width.
pub(crate) fn put_identifier<O: OctetOut>(
    out: &mut BitOut<O>,
    bits: u8,
    option: u8,
) -> Result<(), PutFault>
    requires { IsReady O.sink out.old }
    ensures { Writes O.sink result out.old out.new (bits_of (identifier_bits bits) option) }
{
    out.put_bits(u32::from(option), option_bits(bits))
}

fn put_uncoded<O: OctetOut>(out: &mut BitOut<O>, values: &[u16], bits: u8) -> Result<(), PutFault>
    requires open { IsReady O.sink out.old }
    requires bits { bits ≤ 10 }
    ensures { Writes O.sink result out.old out.new (flat_map (bits_of bits) values.now) }
{
    for value in values {
        out.put_bits(*value as u32, bits)?;
    }
    Ok(())
}

fn put_unary<O: OctetOut>(out: &mut BitOut<O>, zeros: u16) -> Result<(), PutFault>
    requires { IsReady O.sink out.old }
    ensures { Writes O.sink result out.old out.new (copies zeros false ++ true ∷ []) }
{
    out.put_zeros(zeros)?;
    out.put(true)
}

fn put_unary_parts<O: OctetOut>(out: &mut BitOut<O>, values: &[u16], k: u8) -> Result<(), PutFault>
    requires open { IsReady O.sink out.old }
    requires k { k ≤ 15 }
    ensures { Writes O.sink result out.old out.new (flat_map (unary_bits k) values.now) }
{
    for value in values {
        put_unary(out, *value >> k)?;
    }
    Ok(())
}

fn put_rests<O: OctetOut>(out: &mut BitOut<O>, values: &[u16], k: u8) -> Result<(), PutFault>
    requires open { IsReady O.sink out.old }
    requires k { k ≤ 15 }
    ensures { Writes O.sink result out.old out.new (flat_map (rest_bits k) values.now) }
{
    for value in values {
        out.put_bits((*value % (1 << k)) as u32, k)?;
    }
    Ok(())
}

// Puts mapped values under an option: as they are, or all unary parts and then all rests.
pub(crate) fn put_mapped<O: OctetOut>(
    out: &mut BitOut<O>,
    values: &[u16],
    bits: u8,
    option: u8,
) -> Result<(), PutFault>
    requires open { IsReady O.sink out.old }
    requires bits { bits ≤ 10 }
    requires option { option ≤ 15 }
    ensures { Writes O.sink result out.old out.new (value_bits bits option values.now) }
{
    if option == UNCODED {
        return put_uncoded(out, values, bits);
    }
    put_unary_parts(out, values, option)?;
    if option == 0 {
        return Ok(());
    }
    put_rests(out, values, option)
}
