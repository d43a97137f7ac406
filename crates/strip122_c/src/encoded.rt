// The report on an encoding.
ghost use Rattle.std.specs.Prelude.{◌≡◌};
ghost use Rattle.strip122_c.specs.EncodedReport.{field_number};
ghost use Rattle.strip122_c.specs.Encoding.{report_of, answer_of};

use crate::encode::EncodeRefusal;
use base_122::Field;
use strip_coder::EncodeDone;

/// What was done, or why it was not. A field that the answer does not need is 0.
#[repr(C)]
#[derive(Clone, Copy, Debug, PartialEq, Eq)]
pub struct Strip122Encoded {
    /// The size of this structure.
    pub size: u32,
    /// The number of the first field out of range, from 1 on in the order of `Field`.
    pub field: u32,
    /// The number of octets of the packets that the call gave, or that the room needs.
    pub octets: u64,
    /// The number of octets of all packets of the image so far.
    pub all: u64,
    /// The number of packets and of segments so far.
    pub packets: u64,
    pub segments: u32,
    /// The number of rows that were taken so far, or the row of the first pixel out of range.
    pub rows: u32,
    /// The column and the value of the first pixel out of range.
    pub column: u32,
    pub value: i32,
}

/// The size of a report.
pub(crate) const ENCODED_SIZE: u32 = 48;

const _: () = prove!(size_of::<Strip122Encoded>() == 48);

/// Returns a report of nothing.
pub(crate) const NOTHING: Strip122Encoded = Strip122Encoded {
    size: ENCODED_SIZE,
    field: 0,
    octets: 0,
    all: 0,
    packets: 0,
    segments: 0,
    rows: 0,
    column: 0,
    value: 0,
};

/// Returns the report on an encoding that ended so.
pub fn report_of(ended: &Result<EncodeDone, EncodeRefusal>) -> Strip122Encoded
    ensures { result ≡ report_of ended.now }
{
    let mut report = NOTHING;
    match *ended {
        Ok(done) => {
            report.octets = done.octets;
            report.all = done.octets;
            report.packets = done.packets;
            report.segments = done.segments;
        }
        Err(EncodeRefusal::OutOfRange(field)) => report.field = field_number(field),
        Err(EncodeRefusal::BadPixel { row, column, value }) => {
            report.rows = row;
            report.column = column;
            report.value = value;
        }
        Err(EncodeRefusal::SmallRoom { octets }) => report.octets = octets,
        Err(_) => {}
    }
    report
}

/// Returns the number of a field.
pub(crate) fn field_number(field: Field) -> u32
    ensures { result ≡ field_number field }
{
    field as u32 + 1
}

/// Returns the answer to an encoding that ended so.
pub fn answer_of(ended: &Result<EncodeDone, EncodeRefusal>) -> u32
    ensures { result ≡ answer_of ended.now }
{
    match ended {
        Ok(_) => 0,
        Err(EncodeRefusal::OutOfRange(_)) => 2,
        Err(EncodeRefusal::Short) => 3,
        Err(EncodeRefusal::Long) => 4,
        Err(EncodeRefusal::BadPixel { .. }) => 5,
        Err(EncodeRefusal::SmallRoom { .. }) => 7,
        Err(EncodeRefusal::Memory) => 8,
    }
}
