// The image that is coded.
ghost use Rattle.std.specs.Prelude.{◌≡◌};
ghost use Rattle.strip_coder.specs.Plans.{tallest};

use base_122::{FieldRange, Setting};

/// A setting and the height of its image.
#[derive(Clone, Copy)]
pub struct Plan {
    pub setting: Setting,
    pub rows: u32,
}

impl Plan {
    /// Returns the plan of an image of this height.
    pub fn new(setting: &Setting, rows: u32) -> Plan
        ensures { result ≡ record { setting = setting.now; rows = rows } }
    {
        Plan {
            setting: *setting,
            rows,
        }
    }

    /// Returns the plan of the tallest image of a setting: while the rows are open, no row is known to be the last.
    pub fn tallest(setting: &Setting) -> Plan
        ensures { result ≡ record { setting = setting.now; rows = tallest setting.now } }
    {
        if setting.rows == 0 {
            return Plan::new(setting, FieldRange::ROWS.most as u32);
        }
        Plan::new(setting, setting.rows)
    }
}
