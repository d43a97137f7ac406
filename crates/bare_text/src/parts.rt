// The parts in force, and heads completed with them.
ghost use Rattle.std.specs.Prelude.{◌≡◌, ◌≤◌, ◌+◌, ◌++◌, true, length, take, drop, IfOk};
ghost use Rattle.segment_defs.specs.Head.{IsHead};
ghost use Rattle.segment_defs.specs.Reading.{head_read};
ghost use Rattle.bare_text.specs.InForce.{part_or, rest_after, bare_length, parts_after, completed_with};

use segment_head::{Carried, HeadFault, SegmentHead, carried_in, part_1_length, read_head};

/// The Parts 2, 3 and 4 in force: each is that of the last head that carried it (docs/formats.md, "Bare texts").
#[derive(Clone, Copy, Debug, PartialEq, Eq)]
pub struct PartsInForce {
    // The flags of those of them that a head has carried.
    pub(crate) carried: Carried,
    // Their octets, one part after another; zeros for a part that no head has carried.
    pub(crate) octets: [u8; 16],
}

impl PartsInForce {
    ghost use Rattle.std.specs.Prelude.{false};
    ghost use Rattle.bare_text.specs.InForce.{none_in_force};

    /// Returns the parts in force before the first head: none.
    pub fn none() -> PartsInForce
        ensures { result ≡ none_in_force }
    {
        PartsInForce {
            carried: Carried {
                part_2: false,
                part_3: false,
                part_4: false,
            },
            octets: [0; 16],
        }
    }

    // Returns the parts in force after a head with these octets.
    pub(crate) fn after(&self, octets: &[u8]) -> PartsInForce
        requires start { 3 ≤ length octets.now }
        requires whole { bare_length octets.now ≤ length octets.now }
        ensures parts { result ≡ parts_after self.now octets.now }
        ensures sixteen { length result.octets ≡ 16 }
    {
        let carried = carried_in(octets);
        let rest = rest_from(octets, part_1_length(octets));
        let (second, rest) = split_part(carried.part_2, 5, rest, &self.octets[..5]);
        let (third, rest) = split_part(carried.part_3, 3, rest, &self.octets[5..8]);
        let (fourth, _) = split_part(carried.part_4, 8, rest, rest_from(&self.octets, 8));
        PartsInForce {
            carried: Carried {
                part_2: carried.part_2 | self.carried.part_2,
                part_3: carried.part_3 | self.carried.part_3,
                part_4: carried.part_4 | self.carried.part_4,
            },
            octets: joined(second, third, fourth),
        }
    }
}

// Returns the octets from a place on.
fn rest_from(octets: &[u8], place: usize) -> &[u8]
    requires { place ≤ length octets.now }
    ensures { result.now ≡ drop place octets.now }
{
    &octets[place..]
}

// Returns a part, which is in the first octets of the rest if it is carried and otherwise is that in force; and the octets after it.
fn split_part<'a>(
    is_carried: bool,
    width: usize,
    rest: &'a [u8],
    force: &'a [u8],
) -> (&'a [u8], &'a [u8])
    requires room { is_carried ≡ true → width ≤ length rest.now }
    requires force { length force.now ≡ width }
    ensures part { result.0.now ≡ part_or is_carried width rest.now force.now }
    ensures rest { result.1.now ≡ rest_after is_carried width rest.now }
    ensures width { length result.0.now ≡ width }
{
    if !is_carried {
        return (force, rest);
    }
    rest.split_at(width)
}

// Returns the octets of three parts.
fn joined(second: &[u8], third: &[u8], fourth: &[u8]) -> [u8; 16]
    requires second { length second.now ≡ 5 }
    requires third { length third.now ≡ 3 }
    requires fourth { length fourth.now ≡ 8 }
    ensures { result ≡ second.now ++ (third.now ++ fourth.now) }
{
    let mut octets = [0; 16];
    put_at(&mut octets, 0, second);
    put_at(&mut octets, 5, third);
    put_at(&mut octets, 8, fourth);
    octets
}

// Puts the octets of a part into those of all parts, from a place on.
fn put_at(octets: &mut [u8; 16], place: usize, part: &[u8])
    requires { place + length part.now ≤ 16 }
    ensures { octets.new ≡ take place octets.old ++ (part.now ++ drop (place + length part.now) octets.old) }
{
    octets[place..place + part.len()].copy_from_slice(part);
}

// Returns the number of octets of the head that begins with these, of which some parts may be absent.
pub(crate) fn bare_length(octets: &[u8]) -> usize
    requires { 3 ≤ length octets.now }
    ensures { result ≡ bare_length octets.now }
{
    let carried = carried_in(octets);
    part_1_length(octets)
        + if carried.part_2 { 5 } else { 0 }
        + if carried.part_3 { 3 } else { 0 }
        + if carried.part_4 { 8 } else { 0 }
}

// Reads a head that is completed with the parts in force after it.
pub(crate) fn read_completed(octets: &[u8], parts: &PartsInForce) -> Result<SegmentHead, HeadFault>
    requires start { 3 ≤ length octets.now }
    requires whole { bare_length octets.now ≤ length octets.now }
    ensures value { result ≡ head_read (completed_with parts.now.octets octets.now) }
    ensures fits { IfOk result (λ head. IsHead head) }
{
    let first = part_1_length(octets);
    let mut whole = [0; 20];
    whole[..first].copy_from_slice(&octets[..first]);
    whole[2] = octets[2] / 8 * 8 + 7;
    whole[first..first + 16].copy_from_slice(&parts.octets);
    read_head(&whole[..first + 16])
}
