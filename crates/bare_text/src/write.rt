// Writes a head that carries only the parts that changed.
ghost use Rattle.std.specs.Prelude.{◌≡◌, ◌≤◌, ◌*◌, length, IfSome};
ghost use Rattle.std.specs.List.{flat_map};
ghost use Rattle.std.specs.Str.{bytes_eq};
ghost use Rattle.bit_pipe.specs.SinkState.{sink_state, IsReady, Writes};
ghost use Rattle.segment_defs.specs.Head.{IsHead, IsImagePart, head_length, field_bits, part_2, part_3, part_4};
ghost use Rattle.bare_text.specs.Writing.{part_octets, carried_after, fields_where, bare_head_bits};

use base_122::Weights;
use bit_pipe::{BitOut, OctetOut, PutFault};
use segment_head::{
    Carried, ImagePart, SegmentHead, put_part_1, put_part_2, put_part_3, put_part_4,
};

// Returns the parts that a head carries: those that differ from the parts in force, which are those of the head before.
fn carried_after(before: Option<SegmentHead>, head: &SegmentHead) -> Carried
    requires before { IfSome before (λ h. IsHead h) }
    requires fits { IsHead head.now }
    ensures { result ≡ carried_after before head.now }
{
    let Some(before) = before else {
        return Carried::all();
    };
    Carried {
        part_2: !same_part_2(&before, head),
        part_3: !same_part_3(&before, head),
        part_4: !same_part_4(&before.image, &head.image),
    }
}

// Returns whether two heads have the same Part 2.
fn same_part_2(one: &SegmentHead, other: &SegmentHead) -> bool
    requires one { IsHead one.now }
    requires other { IsHead other.now }
    ensures { result ≡ bytes_eq (part_octets (part_2 one.now)) (part_octets (part_2 other.now)) }
{
    (one.limit == other.limit) & (one.stop == other.stop) & (one.fill == other.fill)
}

// Returns whether two heads have the same Part 3.
fn same_part_3(one: &SegmentHead, other: &SegmentHead) -> bool
    requires one { IsHead one.now }
    requires other { IsHead other.now }
    ensures { result ≡ bytes_eq (part_octets (part_3 one.now)) (part_octets (part_3 other.now)) }
{
    (one.blocks == other.blocks) & (one.best_dc == other.best_dc) & (one.best_ac == other.best_ac)
}

// Returns whether two heads have the same Part 4.
fn same_part_4(one: &ImagePart, other: &ImagePart) -> bool
    requires one { IsImagePart one.now }
    requires other { IsImagePart other.now }
    ensures { result ≡ bytes_eq (part_octets (part_4 one.now)) (part_octets (part_4 other.now)) }
{
    (one.signed == other.signed)
        & (one.depth == other.depth)
        & (one.width == other.width)
        & (one.word == other.word)
        & same_weights(&one.weights, &other.weights)
}

pub(crate) fn same_weights(one: &Weights, other: &Weights) -> bool
    ensures same { result ≡ bytes_eq one.now.shifts other.now.shifts }
    ensures ten { (length one.now.shifts ≡ 10) × (length other.now.shifts ≡ 10) }
{
    one.shifts == other.shifts
}

/// Puts a head that carries only the Parts 2, 3 and 4 that differ from those in force (docs/formats.md, "Bare texts"): these are
/// those of the head before, and no part is in force before the first head.
///
/// # Errors
///
/// Those of `BitOut`.
pub fn put_bare_head<O: OctetOut>(
    out: &mut BitOut<O>,
    before: Option<SegmentHead>,
    head: &SegmentHead,
) -> Result<(), PutFault>
    requires before { IfSome before (λ h. IsHead h) }
    requires fits { IsHead head.now }
    requires open { IsReady O.sink out.old }
    requires room { 8 * head_length head.now ≤ (sink_state O.sink out.old).room }
    ensures { Writes O.sink result out.old out.new (bare_head_bits (carried_after before head.now) head.now) }
{
    let carried = carried_after(before, head);
    put_part_1(out, head, carried)?;
    put_second(out, head, carried.part_2)?;
    put_third(out, head, carried.part_3)?;
    put_fourth(out, &head.image, carried.part_4)
}

// Puts Part 2, if it is carried.
fn put_second<O: OctetOut>(
    out: &mut BitOut<O>,
    head: &SegmentHead,
    is_carried: bool,
) -> Result<(), PutFault>
    requires { IsReady O.sink out.old }
    ensures { Writes O.sink result out.old out.new (flat_map field_bits (fields_where is_carried (part_2 head.now))) }
{
    if !is_carried {
        return Ok(());
    }
    put_part_2(out, head)
}

// Puts Part 3, if it is carried.
fn put_third<O: OctetOut>(
    out: &mut BitOut<O>,
    head: &SegmentHead,
    is_carried: bool,
) -> Result<(), PutFault>
    requires { IsReady O.sink out.old }
    ensures { Writes O.sink result out.old out.new (flat_map field_bits (fields_where is_carried (part_3 head.now))) }
{
    if !is_carried {
        return Ok(());
    }
    put_part_3(out, head)
}

// Puts Part 4, if it is carried.
fn put_fourth<O: OctetOut>(
    out: &mut BitOut<O>,
    image: &ImagePart,
    is_carried: bool,
) -> Result<(), PutFault>
    requires word { 1 ≤ image.now.word }
    requires open { IsReady O.sink out.old }
    requires room { 64 ≤ (sink_state O.sink out.old).room }
    ensures { Writes O.sink result out.old out.new (flat_map field_bits (fields_where is_carried (part_4 image.now))) }
{
    if !is_carried {
        return Ok(());
    }
    put_part_4(out, image)
}
