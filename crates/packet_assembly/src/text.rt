// A segment's text, octet by octet.
use crate::assembly::Assembly;
use bit_pipe::{InFault, OctetIn};
use port_122::Port;

/// The text of an assembly's segment after its head, as it is read from a port (docs/formats.md, "Fates").
///
/// It breaks if another segment's first packet, the end or a framing fault is read before the closing part. As a source it counts
/// the port's `read_faults`.
#[derive(Drop)]
pub struct SegmentText<'a, X> {
    pub assembly: &'a mut Assembly,
    pub port: &'a mut X,
}

impl<'a, X: Port> OctetIn for SegmentText<'a, X> {
    ghost use Rattle.packet_assembly.specs.TextSource.{segment_source};

    ghost source = { segment_source X.outside };

    fn take(&mut self) -> Result<Option<u8>, InFault> {
        self.assembly.take_octet(self.port)
    }

    #[inline(always)]
    fn buffer(&self) -> &[u8] {
        self.assembly.ready()
    }

    #[inline(always)]
    fn consume(&mut self, count: usize) {
        self.assembly.pass_ready(count);
    }
}
