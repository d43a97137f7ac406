// Segment headers, read and written.
ghost use Rattle.std.specs.Prelude.{◌≡◌, ◌≤◌};
ghost use Rattle.segment_defs.specs.Head.{IsHead};

use crate::bit_words::octets_in;
use crate::case::{Case, Refusal};
use crate::shown::Hex;
use bit_pipe::{BitOut, PutFault, SliceOut};
use segment_head::{SegmentHead, read_head, write_head};

#[tactic(auto, using(bit_pipe::proofs::Putting::open_after))]
fn put_head(into: &mut [u8], head: &SegmentHead) -> Result<u64, PutFault>
    requires { IsHead head.now }
{
    let mut sink = SliceOut::new(into);
    let mut out = BitOut::new(&mut sink, 0, 0);
    write_head(&mut out, head)?;
    Ok(out.end(1, false)?)
}

// The octets of a header: its fields, and its octets as they are written for these.
pub(crate) fn head(case: &Case) -> Result<String, Refusal> {
    let octets = octets_in(case.alloc, case.data)?;
    let read = read_head(octets.as_slice());
    let Ok(head) = read else {
        return Ok(format!(in case.alloc; "{read:?}")?);
    };
    let mut room = [0xaa; 20];
    let put = put_head(&mut room, &head);
    let shown = Hex(room.get(..usize::from(head.octets())).unwrap_or(&[]));
    Ok(format!(in case.alloc; "{head:?}; written {put:?} {shown}")?)
}
