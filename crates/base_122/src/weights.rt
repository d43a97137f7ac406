ghost use Rattle.std.specs.Prelude.{◌≡◌};

/// A band of the three-level transform. The number is its level: `Hl2` is horizontally high and vertically low.
#[derive(Clone, Copy, Debug, PartialEq, Eq)]
pub enum Band {
    Hh1,
    Hl1,
    Lh1,
    Hh2,
    Hl2,
    Lh2,
    Hh3,
    Hl3,
    Lh3,
    Ll3,
}

/// The exponents of two by which the bands' coefficients are multiplied, in the order of `Band`, each 0 to 3
/// (docs/formats.md, "Weights").
#[derive(Clone, Copy, Debug, PartialEq, Eq)]
pub struct Weights {
    pub shifts: [u8; 10],
}

impl Weights {
    ghost use Rattle.std.specs.List.{list_all};
    ghost use Rattle.base_122.specs.Weights.{usual_shifts, shift_of, is_shift};

    /// Returns the usual weights.
    pub fn usual() -> Weights
        ensures { result.shifts ≡ usual_shifts }
    {
        Weights {
            shifts: [0, 1, 1, 1, 2, 2, 2, 3, 3, 3],
        }
    }

    /// Returns the exponent of a band.
    pub fn shift(&self, band: Band) -> u8
        ensures { result ≡ shift_of self.now.shifts band }
    {
        self.shifts[band as usize]
    }

    /// Returns whether each exponent fits two bits: 0 to 3.
    pub fn are_in_range(&self) -> bool
        ensures { result ≡ list_all is_shift self.now.shifts }
    {
        self.shifts.iter().all(|shift| *shift <= 3)
    }
}
