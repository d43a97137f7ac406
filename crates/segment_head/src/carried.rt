// The parts that a head carries.
ghost use Rattle.std.specs.Prelude.{◌≡◌};
ghost use Rattle.segment_head.specs.Parts.{all_carried};

/// The flags of Part 1A: which of the Parts 2, 3 and 4 a head carries (docs/formats.md, "The head").
#[derive(Clone, Copy, Debug, PartialEq, Eq)]
pub struct Carried {
    pub part_2: bool,
    pub part_3: bool,
    pub part_4: bool,
}

impl Carried {
    /// Returns all three, as each head of a packet has them.
    pub fn all() -> Carried
        ensures { result ≡ all_carried }
    {
        Carried {
            part_2: true,
            part_3: true,
            part_4: true,
        }
    }
}
