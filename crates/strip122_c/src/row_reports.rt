// The reports on the calls of an encoder that takes rows.
ghost use Rattle.std.specs.Prelude.{◌≡◌};
ghost use Rattle.strip122_c.specs.RowReports.{end_answer, end_report, new_answer, new_report, progress_report, row_answer, row_report};

use crate::encoded::{NOTHING, Strip122Encoded, field_number};
use encoder_rows::{Encoder, EndRefusal, Ended, NewRefusal, Progress, RowRefusal};

/// Returns the report on an encoder that was made, or refused.
pub(crate) fn new_report(made: &Result<Encoder, NewRefusal>) -> Strip122Encoded
    ensures { result ≡ new_report made.now }
{
    let mut report = NOTHING;
    if let Err(NewRefusal::OutOfRange(field)) = made {
        report.field = field_number(*field);
    }
    report
}

/// Returns the answer to it.
pub(crate) fn new_answer(made: &Result<Encoder, NewRefusal>) -> u32
    ensures { result ≡ new_answer made.now }
{
    match made {
        Ok(_) => 0,
        Err(NewRefusal::OutOfRange(_)) => 2,
        Err(NewRefusal::Memory) => 8,
    }
}

// Returns the report on what was taken and given of an image.
fn progress_report(progress: &Progress) -> Strip122Encoded
    ensures { result ≡ progress_report progress.now }
{
    let mut report = NOTHING;
    report.all = progress.octets;
    report.packets = progress.packets;
    report.segments = progress.segments;
    report.rows = progress.rows;
    report
}

/// Returns the report on a row that was taken or refused, of an encoder that has this progress after it.
pub(crate) fn row_report(progress: &Progress, ended: &Result<usize, RowRefusal>) -> Strip122Encoded
    ensures { result ≡ row_report progress.now ended.now }
{
    let mut report = progress_report(progress);
    match *ended {
        Ok(count) => report.octets = count as u64,
        Err(RowRefusal::SmallRoom { octets }) => report.octets = octets,
        Err(RowRefusal::BadPixel { column, value }) => {
            report.column = column;
            report.value = value;
        }
        Err(_) => {}
    }
    report
}

/// Returns the answer to it.
pub(crate) fn row_answer(ended: &Result<usize, RowRefusal>) -> u32
    ensures { result ≡ row_answer ended.now }
{
    match ended {
        Ok(_) => 0,
        Err(RowRefusal::Short) => 3,
        Err(RowRefusal::Long) => 4,
        Err(RowRefusal::BadPixel { .. }) => 5,
        Err(RowRefusal::SmallRoom { .. }) => 7,
        Err(RowRefusal::Full) => 10,
    }
}

/// Returns the report on the end of an image that had this progress before it.
pub(crate) fn end_report(before: &Progress, ended: &Result<Ended, EndRefusal>) -> Strip122Encoded
    ensures { result ≡ end_report before.now ended.now }
{
    let mut report = progress_report(before);
    match *ended {
        Ok(ended) => {
            report.octets = ended.octets as u64;
            report.all = ended.done.octets;
            report.packets = ended.done.packets;
            report.segments = ended.done.segments;
        }
        Err(EndRefusal::SmallRoom { octets }) => report.octets = octets,
        Err(EndRefusal::Unfinished) => {}
    }
    report
}

/// Returns the answer to it.
pub(crate) fn end_answer(ended: &Result<Ended, EndRefusal>) -> u32
    ensures { result ≡ end_answer ended.now }
{
    match ended {
        Ok(_) => 0,
        Err(EndRefusal::SmallRoom { .. }) => 7,
        Err(EndRefusal::Unfinished) => 11,
    }
}
