// The writer of a head.
ghost use Rattle.std.specs.Prelude.{◌≡◌, ◌≢◌, ◌≤◌, ◌*◌, map, [], ◌∷◌, ◌++◌, length, Err};
ghost use Rattle.std.specs.List.{flat_map};
ghost use Rattle.std.specs.Str.{bytes_eq};
ghost use Rattle.base_122.specs.Weights.{usual_shifts};
ghost use Rattle.bit_pipe.specs.SinkState.{sink_state, Puts, IsReady, Writes};
ghost use Rattle.bit_pipe.specs.declared.fault.PutFault.TheVariants.{Stopped};
ghost use Rattle.segment_defs.specs.Head.{field as field_of, flag as flag_of, reserved as reserved_of};
ghost use Rattle.segment_defs.specs.Head.{IsHead, head_bits, head_length, field_bits, part_2, part_3, part_4, weight_fields};
ghost use Rattle.segment_head.specs.Parts.{part_1, part_1a};
ghost use Rattle.segment_head.specs.Writing.{said, first_parts, plain_fields};

use crate::carried::Carried;
use crate::field::Field;
use base_122::Weights;
use bit_pipe::{BitOut, OctetOut, PutFault};
use segment_defs::{ImagePart, SegmentHead};

/// Puts the bits of a head that fits (docs/formats.md, "The head"). The bound has room for it, so `Stopped` is
/// never returned.
pub fn write_head<O: OctetOut>(out: &mut BitOut<O>, head: &SegmentHead) -> Result<(), PutFault>
    requires fits { IsHead head.now }
    requires open { IsReady O.sink out.old }
    requires room { 8 * head_length head.now ≤ (sink_state O.sink out.old).room }
    ensures puts { Writes O.sink result out.old out.new (head_bits head.now) }
    ensures never_stops { result ≢ Err Stopped }
{
    put_first_parts(out, head)?;
    put_part_4(out, &head.image)
}

// Puts Parts 1, 2 and 3.
fn put_first_parts<O: OctetOut>(out: &mut BitOut<O>, head: &SegmentHead) -> Result<(), PutFault>
    requires { IsReady O.sink out.old }
    ensures { Writes O.sink result out.old out.new (flat_map field_bits (first_parts head.now)) }
{
    put_part_1(out, head, Carried::all())?;
    put_part_2(out, head)?;
    put_part_3(out, head)
}

/// Puts Part 1 of a head that carries these of the Parts 2, 3 and 4 (docs/formats.md, "The head"): Part 1A, and Part 1B in
/// the image's last segment.
///
/// # Errors
///
/// Those of `BitOut`.
pub fn put_part_1<O: OctetOut>(
    out: &mut BitOut<O>,
    head: &SegmentHead,
    carried: Carried,
) -> Result<(), PutFault>
    requires { IsReady O.sink out.old }
    ensures { Writes O.sink result out.old out.new (flat_map field_bits (part_1 carried head.now)) }
{
    put_fields(out, &part_1a(head, carried))?;
    if !head.last {
        return Ok(());
    }
    put_fields(out, &[field(3, u32::from(head.pad_rows)), reserved(5)])
}

/// Puts Part 2: the limit, the stop and the fill.
///
/// # Errors
///
/// Those of `BitOut`.
pub fn put_part_2<O: OctetOut>(out: &mut BitOut<O>, head: &SegmentHead) -> Result<(), PutFault>
    requires { IsReady O.sink out.old }
    ensures { Writes O.sink result out.old out.new (flat_map field_bits (part_2 head.now)) }
{
    put_fields(out, &part_2(head))
}

/// Puts Part 3: the blocks and how options are selected.
///
/// # Errors
///
/// Those of `BitOut`.
pub fn put_part_3<O: OctetOut>(out: &mut BitOut<O>, head: &SegmentHead) -> Result<(), PutFault>
    requires { IsReady O.sink out.old }
    ensures { Writes O.sink result out.old out.new (flat_map field_bits (part_3 head.now)) }
{
    put_fields(out, &part_3(head))
}

/// Puts Part 4: what the head says of the image. The bound has room for it, so `Stopped` is never returned.
///
/// # Errors
///
/// Those of `BitOut`.
pub fn put_part_4<O: OctetOut>(out: &mut BitOut<O>, image: &ImagePart) -> Result<(), PutFault>
    requires word { 1 ≤ image.now.word }
    requires open { IsReady O.sink out.old }
    requires room { 64 ≤ (sink_state O.sink out.old).room }
    ensures puts { Writes O.sink result out.old out.new (flat_map field_bits (part_4 image.now)) }
    ensures never_stops { result ≢ Err Stopped }
{
    put_fields(out, &plain_fields(image))?;
    put_weights(out, &image.weights)?;
    put_fields(out, &[reserved(11)])
}

// Puts the weights. If they are the usual ones, the flag alone represents them.
fn put_weights<O: OctetOut>(out: &mut BitOut<O>, weights: &Weights) -> Result<(), PutFault>
    requires { IsReady O.sink out.old }
    ensures puts { Writes O.sink result out.old out.new (flat_map field_bits (weight_fields weights.now.shifts)) }
    ensures ten { length weights.now.shifts ≡ 10 }
{
    if are_usual(weights) {
        return put_fields(out, &[flag(false), reserved(20)]);
    }
    put_fields(out, &[flag(true)])?;
    put_shifts(out, &weights.shifts)
}

fn are_usual(weights: &Weights) -> bool
    ensures usual { result ≡ bytes_eq weights.now.shifts usual_shifts }
    ensures ten { length weights.now.shifts ≡ 10 }
{
    weights.shifts == Weights::usual().shifts
}

fn put_shifts<O: OctetOut>(out: &mut BitOut<O>, shifts: &[u8]) -> Result<(), PutFault>
    requires { IsReady O.sink out.old }
    ensures { Writes O.sink result out.old out.new (flat_map field_bits (map (field_of 2) shifts.now)) }
{
    for shift in shifts {
        out.put_bits(u32::from(*shift), 2)?;
    }
    Ok(())
}

fn put_fields<O: OctetOut>(out: &mut BitOut<O>, fields: &[Field]) -> Result<(), PutFault>
    requires { IsReady O.sink out.old }
    ensures { Writes O.sink result out.old out.new (flat_map field_bits (map said fields.now)) }
{
    for field in fields {
        out.put_bits(field.value, field.width)?;
    }
    Ok(())
}

fn flag(value: bool) -> Field
    ensures { said result ≡ flag_of value }
{
    field(1, u32::from(value))
}

fn field(width: u8, value: u32) -> Field
    requires { width ≤ 32 }
    ensures { said result ≡ field_of width value }
{
    Field { width, value }
}

fn reserved(width: u8) -> Field
    requires { width ≤ 32 }
    ensures { said result ≡ reserved_of width }
{
    field(width, 0)
}

fn part_1a(head: &SegmentHead, carried: Carried) -> [Field; 9]
    ensures { map said result ≡ part_1a carried head.now }
{
    [
        flag(head.first),
        flag(head.last),
        field(8, u32::from(head.count)),
        field(5, u32::from(head.depth_dc)),
        field(5, u32::from(head.depth_ac)),
        reserved(1),
        flag(carried.part_2),
        flag(carried.part_3),
        flag(carried.part_4),
    ]
}

fn part_2(head: &SegmentHead) -> [Field; 6]
    ensures { map said result ≡ part_2 head.now }
{
    [
        field(27, head.limit),
        flag(head.stop.dc),
        field(5, u32::from(head.stop.plane)),
        field(2, u32::from(head.stop.stage)),
        flag(head.fill),
        reserved(4),
    ]
}

fn part_3(head: &SegmentHead) -> [Field; 4]
    ensures { map said result ≡ part_3 head.now }
{
    [
        field(20, head.blocks),
        flag(head.best_dc),
        flag(head.best_ac),
        reserved(2),
    ]
}

// Returns the fields of Part 4 before the weights.
fn plain_fields(image: &ImagePart) -> [Field; 8]
    requires { 1 ≤ image.now.word }
    ensures { map said result ≡ plain_fields image.now }
{
    [
        flag(true),
        reserved(1),
        flag(false),
        flag(image.signed),
        field(4, u32::from(image.depth % 16)),
        field(20, image.width),
        flag(false),
        field(3, 2 * u32::from(image.word - 1)),
    ]
}
