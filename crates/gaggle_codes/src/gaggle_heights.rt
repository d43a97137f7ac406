// The numbers of a gaggle as they are read.
ghost use Rattle.std.specs.Prelude.{◌≡◌, ◌<◌, ◌≤◌, ◌+◌, ◌-◌, slice_index};

// The number of numbers of a whole gaggle.
pub(crate) const GAGGLE: usize = 16;

// The first numbers of a gaggle, by their heights, and the last number that was taken, which is the one before the gaggle if there is
// none of it.
#[derive(Drop)]
pub(crate) struct GaggleHeights {
    heights: [u16; GAGGLE],
    len: usize,
    last: u16,
    ghost within: { len ≤ 16 },
    ghost is_last: { 0 < len → last ≡ slice_index heights (len - 1) },
}

impl GaggleHeights {
    ghost use Rattle.std.specs.Prelude.{◌++◌, ◌∷◌, [], length};
    ghost use Rattle.gaggle_codes.specs.Given.{heights_in, last_in};

    // Returns no numbers yet, after the one before the gaggle.
    pub(crate) fn new(before: u16) -> GaggleHeights
        ensures none { heights_in result ≡ [] }
        ensures last { last_in result ≡ before }
    {
        GaggleHeights {
            heights: [0; GAGGLE],
            len: 0,
            last: before,
        }
    }

    pub(crate) fn as_slice(&self) -> &[u16]
        ensures { result.now ≡ heights_in self.now }
    {
        &self.heights[..self.len]
    }

    // Returns the last number that was taken.
    pub(crate) fn last(&self) -> u16
        ensures is { result ≡ last_in self.now }
        ensures newest { 0 < length (heights_in self.now) → result ≡ slice_index (heights_in self.now) (length (heights_in self.now) - 1) }
    {
        self.last
    }

    pub(crate) fn push(&mut self, height: u16)
        requires { length (heights_in self.old) < 16 }
        ensures heights { heights_in self.new ≡ heights_in self.old ++ height ∷ [] }
        ensures last { last_in self.new ≡ height }
    {
        self.heights[self.len] = height;
        self.len += 1;
        self.last = height;
    }
}
