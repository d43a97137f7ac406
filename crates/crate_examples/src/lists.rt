// Lists the packets of some octets.
ghost use Rattle.std.specs.Prelude.{◌≡◌, ◌≢◌, MatchResult};
ghost use Rattle.strip_decoder.specs.PacketLines.{listing};
ghost use Rattle.strip_decoder.specs.declared.list.ListFault.TheVariants.{LongInput};

use base_122::DecodeWish;
use port_122::MemoryPort;
use std::alloc::Global;
use strip_decoder::{ListFault, list_packets};

/// Returns the lines of all packets in these octets, up to what can't be read on. Each error is that there is too little memory, for the
/// list or for the port.
pub fn list_octets(alloc: Global, octets: Vec<u8>, apid: u16) -> Result<Vec<u8>, ListFault>
    ensures { MatchResult result
        (λ lines. lines.items ≡ listing apid octets.items)
        (λ fault. fault ≢ LongInput) }
{
    let wish = DecodeWish {
        apid,
        pixels: 0,
        octets: octets.len() as u64 + 1,
        ..DecodeWish::usual()
    };
    let Ok(mut port) = MemoryPort::new(alloc, octets, Vec::new(alloc), 4096) else {
        return Err(ListFault::Memory);
    };
    list_packets(alloc, &mut port, &wish)?;
    let Ok(lines) = port.given().to_vec(alloc) else {
        return Err(ListFault::Memory);
    };
    Ok(lines)
}
