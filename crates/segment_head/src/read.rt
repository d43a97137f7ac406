// The reader of a head.
ghost use Rattle.std.specs.Prelude.{◌≡◌, ◌≤◌, ◌+◌, length, OnOk, IfOk};
ghost use Rattle.segment_defs.specs.Head.{IsHead};
ghost use Rattle.segment_head.specs.Parts.{carried_in};
ghost use Rattle.segment_defs.specs.Reading.{part_1_length, after_part_1, weights_in, stop_in, image_in, head_of, answer, first_refusal, presence_tests};
ghost use Rattle.segment_defs.specs.Reading.{support_tests, depth_tests, value_tests, head_read};

use crate::carried::Carried;
use crate::places::{is_set, number_in};
use base_122::{Stop, Weights};
use segment_defs::{HeadFault, HeadField, ImagePart, Odd, SegmentHead};

/// Reads the head with which octets begin, or returns the first test that refuses them (docs/formats.md, "The
/// head"). Octets after the head are free.
pub fn read_head(octets: &[u8]) -> Result<SegmentHead, HeadFault>
    ensures value { result ≡ head_read octets.now }
    ensures fits { IfOk result (λ head. IsHead head) }
{
    check_presence(octets)?;
    let later = after_part_1(octets);
    let (second, third, fourth) = (&later[..5], &later[5..8], &later[8..16]);
    check_support(third, fourth)?;
    let head = head_of(octets, second, third, fourth);
    check_depths(head.depth_dc, head.depth_ac)?;
    check_values(&head)?;
    Ok(head)
}

/// Returns the number of octets of Part 1 of a head, 3 or 4, which begins with these octets.
pub fn part_1_length(octets: &[u8]) -> usize
    requires { 3 ≤ length octets.now }
    ensures { result ≡ part_1_length octets.now }
{
    if is_set(octets, 1) { 4 } else { 3 }
}

/// Returns the flags of Part 1A of a head that begins with these octets (docs/formats.md, "The head").
pub fn carried_in(octets: &[u8]) -> Carried
    requires { 3 ≤ length octets.now }
    ensures { result ≡ carried_in octets.now }
{
    Carried {
        part_2: is_set(octets, 21),
        part_3: is_set(octets, 22),
        part_4: is_set(octets, 23),
    }
}

// Returns the octets after Part 1.
fn after_part_1(octets: &[u8]) -> &[u8]
    requires { part_1_length octets.now + 16 ≤ length octets.now }
    ensures rest { result.now ≡ after_part_1 octets.now }
    ensures long { 16 ≤ length result.now }
{
    &octets[part_1_length(octets)..]
}

// Tests that all parts are there, and are whole.
#[tactic(auto, unfolding(segment_defs::specs::Reading::presence_tests))]
fn check_presence(octets: &[u8]) -> Result<(), HeadFault>
    ensures tests { result ≡ answer (first_refusal (presence_tests octets.now)) tt }
    ensures whole { OnOk result (part_1_length octets.now + 16 ≤ length octets.now) }
{
    if octets.len() < 3 {
        return Err(HeadFault::HeadShort {
            octets: octets.len() as u32,
        });
    }
    let carried = carried_in(octets);
    if !carried.part_2 {
        return Err(HeadFault::MissingPart { part: 2 });
    }
    if !carried.part_3 {
        return Err(HeadFault::MissingPart { part: 3 });
    }
    if !carried.part_4 {
        return Err(HeadFault::MissingPart { part: 4 });
    }
    if octets.len() < part_1_length(octets) + 16 {
        return Err(HeadFault::HeadShort {
            octets: octets.len() as u32,
        });
    }
    Ok(())
}

// Tests that Parts 3 and 4 ask for nothing that is not read here.
#[tactic(auto, unfolding(segment_defs::specs::Reading::support_tests))]
fn check_support(third: &[u8], fourth: &[u8]) -> Result<(), HeadFault>
    requires third { length third.now ≡ 3 }
    requires fourth { length fourth.now ≡ 8 }
    ensures { result ≡ answer (first_refusal (support_tests third.now fourth.now)) tt }
{
    if !is_set(fourth, 0) {
        return Err(HeadFault::Unsupported(Odd::Float));
    }
    if is_set(fourth, 2) {
        return Err(HeadFault::Unsupported(Odd::Extended));
    }
    if is_set(fourth, 28) {
        return Err(HeadFault::Unsupported(Odd::Transpose));
    }
    if number_in(fourth, 29, 3) % 2 == 1 {
        return Err(HeadFault::Unsupported(Odd::WordLength));
    }
    if number_in(fourth, 8, 20) == 0 {
        return Err(HeadFault::Unsupported(Odd::Width));
    }
    if number_in(third, 0, 20) == 0 {
        return Err(HeadFault::Unsupported(Odd::Blocks));
    }
    Ok(())
}

// Tests that the depths are within their bounds.
#[tactic(auto, unfolding(segment_defs::specs::Reading::depth_tests))]
fn check_depths(dc: u8, ac: u8) -> Result<(), HeadFault>
    ensures { result ≡ answer (first_refusal (depth_tests dc ac)) tt }
{
    if dc > 28 || ac > 27 {
        return Err(HeadFault::DepthTooLarge { dc, ac });
    }
    Ok(())
}

// Tests that each value is one that a head can have.
#[tactic(auto, unfolding(segment_defs::specs::Reading::value_tests))]
fn check_values(head: &SegmentHead) -> Result<(), HeadFault>
    requires { 1 ≤ head.now.image.word }
    ensures { result ≡ answer (first_refusal (value_tests head.now)) tt }
{
    if head.depth_dc == 0 {
        return Err(HeadFault::BadValue(HeadField::DepthDc));
    }
    if head.image.width < 17 {
        return Err(HeadFault::BadValue(HeadField::Width));
    }
    if head.limit != 0 && (head.limit < 32 || head.limit % u32::from(head.image.word) != 0) {
        return Err(HeadFault::BadValue(HeadField::Limit));
    }
    if head.fill && head.limit == 0 {
        return Err(HeadFault::BadValue(HeadField::Fill));
    }
    Ok(())
}

// Returns the values of the parts.
fn head_of(octets: &[u8], second: &[u8], third: &[u8], fourth: &[u8]) -> SegmentHead
    requires first { part_1_length octets.now ≤ length octets.now }
    requires second { length second.now ≡ 5 }
    requires third { length third.now ≡ 3 }
    requires fourth { length fourth.now ≡ 8 }
    ensures { result ≡ head_of octets.now second.now third.now fourth.now }
{
    let last = is_set(octets, 1);
    SegmentHead {
        first: is_set(octets, 0),
        last,
        count: number_in(octets, 2, 8) as u8,
        depth_dc: number_in(octets, 10, 5) as u8,
        depth_ac: number_in(octets, 15, 5) as u8,
        pad_rows: if last {
            number_in(octets, 24, 3) as u8
        } else {
            0
        },
        limit: number_in(second, 0, 27),
        stop: stop_in(second),
        fill: is_set(second, 35),
        blocks: number_in(third, 0, 20),
        best_dc: is_set(third, 20),
        best_ac: is_set(third, 21),
        image: image_in(fourth),
    }
}

// Returns where Part 2 says that the segment stops.
fn stop_in(second: &[u8]) -> Stop
    requires { length second.now ≡ 5 }
    ensures { result ≡ stop_in second.now }
{
    if is_set(second, 27) {
        return Stop {
            dc: true,
            plane: 0,
            stage: 3,
        };
    }
    Stop {
        dc: false,
        plane: number_in(second, 28, 5) as u8,
        stage: number_in(second, 33, 2) as u8,
    }
}

// Returns what Part 4 says of the image.
fn image_in(fourth: &[u8]) -> ImagePart
    requires { length fourth.now ≡ 8 }
    ensures { result ≡ image_in fourth.now }
{
    let depth = number_in(fourth, 4, 4) as u8;
    ImagePart {
        signed: is_set(fourth, 3),
        depth: if depth == 0 { 16 } else { depth },
        width: number_in(fourth, 8, 20),
        word: number_in(fourth, 29, 3) as u8 / 2 + 1,
        weights: weights_in(fourth),
    }
}

// Returns the weights in Part 4.
fn weights_in(fourth: &[u8]) -> Weights
    requires { length fourth.now ≡ 8 }
    ensures { result ≡ weights_in fourth.now }
{
    if !is_set(fourth, 32) {
        return Weights::usual();
    }
    let mut shifts = [0; 10];
    for (i, shift) in shifts.iter_mut().enumerate() {
        *shift = number_in(fourth, 33 + 2 * i as u8, 2) as u8;
    }
    Weights { shifts }
}
