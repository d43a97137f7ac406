// The fields of a head that is written.
ghost use Rattle.std.specs.Prelude.{◌≤◌};

// A number of bits of a value.
#[derive(Clone, Copy)]
pub(crate) struct Field {
    pub(crate) width: u8,
    pub(crate) value: u32,
    ghost narrow: { width ≤ 32 },
}
