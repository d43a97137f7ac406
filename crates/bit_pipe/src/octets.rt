// Octets given one after another.
ghost use Rattle.std.specs.Prelude.{◌≡◌, ◌<◌, ◌≤◌, ◌+◌, ◌-◌, ◌*◌, ◌/◌, ◌%◌, ◌^◌, ◌++◌, false};
ghost use Rattle.item_defs.specs.Bits.{bits_of, copies};
ghost use Rattle.bit_pipe.specs.Sinks.{PutsOctets};

use crate::fault::Failed;
use crate::sink::OctetOut;

// Gives the octets that the highest of this number of bits fill.
fn put_octets<O: OctetOut>(out: &mut O, bits: u64, count: u8) -> Result<(), Failed>
    requires count { count ≤ 64 }
    requires room { 8 * (O.sink.counts out.old).given + count ≤ 2 ^ 35 }
    ensures { PutsOctets O.sink result out.old out.new (bits_of (count - count % 8) (bits / 2 ^ (count % 8))) }
{
    let mut left = count;
    while left >= 8 {
        left -= 8;
        out.put(((bits >> left) & 0xff) as u8)?;
    }
    Ok(())
}

// Gives the octets that the pending bits and zeros after them fill.
pub fn put_pending<O: OctetOut>(out: &mut O, pending: u64, filled: u8) -> Result<(), Failed>
    requires filled { filled < 64 }
    requires room { 8 * (O.sink.counts out.old).given + filled ≤ 2 ^ 35 }
    ensures { PutsOctets O.sink result out.old out.new (bits_of filled pending ++ copies ((8 - filled % 8) % 8) false) }
{
    put_octets(out, pending, filled)?;
    let filled = filled % 8;
    let pending = (pending & ((1 << filled) - 1)) as u8;
    put_last(out, pending, filled)
}

// Gives the octet that the pending bits and zeros after them fill, if there are such bits.
fn put_last<O: OctetOut>(out: &mut O, pending: u8, filled: u8) -> Result<(), Failed>
    requires filled { filled < 8 }
    requires fits { pending < 2 ^ filled }
    requires room { 8 * (O.sink.counts out.old).given + filled ≤ 2 ^ 35 }
    ensures { PutsOctets O.sink result out.old out.new (bits_of filled pending ++ copies ((8 - filled) % 8) false) }
{
    if filled == 0 {
        return Ok(());
    }
    out.put(pending << (8 - filled))?;
    Ok(())
}

// Gives octets of zeros.
pub fn put_zero_octets<O: OctetOut>(out: &mut O, count: u64) -> Result<(), Failed>
    requires room { (O.sink.counts out.old).given + count ≤ 2 ^ 32 }
    ensures { PutsOctets O.sink result out.old out.new (copies (8 * count) false) }
{
    for _ in 0..count {
        out.put(0)?;
    }
    Ok(())
}
