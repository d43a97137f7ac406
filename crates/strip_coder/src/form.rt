// The form in which the segments of an image are given.
ghost use Rattle.strip_coder.specs.Forms.{Form, packets};
ghost use Rattle.strip_coder.specs.Plans.{IsPlan, job_of};
ghost use Rattle.strip_coder.specs.Works.{IsFull};
ghost use Rattle.strip_coder.specs.Steps.{WritesPresent};

use crate::plan::Plan;
use crate::segments::{Present, write_segment};
use crate::work::Work;
use port_122::{Failed, Port};

/// The form in which the coded segments of an image are given (docs/architecture.md, "The encoder").
pub trait SegmentOut {
    /// What is given for the segments.
    ghost form: { Form };

    /// Writes the present segment, which is full, and advances to the next. After `Failed`, a prefix of it is written.
    fn write_present<X: Port>(port: &mut X, plan: &Plan, work: &mut Work) -> Result<(), Failed>
        requires in_range { IsPlan (job_of form plan.now) }
        requires full { IsFull (job_of form plan.now) work.old }
        ensures { WritesPresent result (job_of form plan.now) (X.outside port.old) (X.outside port.new) work.old work.new };
}

/// Segments as space packets (docs/formats.md, "Packets").
pub struct AsPackets;

impl SegmentOut for AsPackets {
    ghost form = { packets };

    fn write_present<X: Port>(port: &mut X, plan: &Plan, work: &mut Work) -> Result<(), Failed> {
        let present = Present { plan, at: &work.at };
        let Ok(octets) = write_segment(
            port,
            &present,
            &mut work.blocks,
            &mut work.packets,
            &work.writer,
        ) else {
            return Err(Failed);
        };
        work.blocks.clear();
        work.at.index += 1;
        work.at.filled = 0;
        // A bound on all texts is at most 2^40, so what is counted for it never reaches 2^64.
        work.at.used = work.at.used.saturating_add(octets);
        Ok(())
    }
}
