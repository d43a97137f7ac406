// The room that a work has for blocks.
ghost use Rattle.std.specs.Prelude.{◌≡◌};
ghost use Rattle.base_122.specs.Ranges.{IsInRange};
ghost use Rattle.strip_coder.specs.Works.{most_blocks};

use base_122::Setting;

/// Returns the greatest number of blocks of a segment: while the rows are open, no segment is known to be the last.
pub fn most_blocks(setting: &Setting) -> u32
    requires { IsInRange setting.now }
    ensures { result ≡ most_blocks setting.now }
{
    if setting.rows == 0 {
        return setting.segment;
    }
    setting.geometry().blocks_of(0)
}
