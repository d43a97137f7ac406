// The end of the input.
ghost use Rattle.std.specs.Prelude.{MatchResult};
ghost use Rattle.port_122.specs.Outside.{ReadFailed};
ghost use Rattle.raster_rows.specs.Ends.{SawEnd};

use port_122::{Failed, Port};

/// Reads one octet, and returns whether the input was at its end instead. Returns `Failed` only if
/// `read_faults` rose.
pub fn at_end<X: Port>(port: &mut X) -> Result<bool, Failed>
    ensures { MatchResult result
        (SawEnd (X.outside port.old) (X.outside port.new))
        (λ _. ReadFailed (X.outside port.old) (X.outside port.new)) }
{
    let mut octet = [0];
    let count = port.read(&mut octet)?;
    Ok(count == 0)
}
