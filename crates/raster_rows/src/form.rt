// The octets of the pixels of a raster.
ghost use Rattle.std.specs.Prelude.{◌++◌, take, ◌≡◌, ◌+◌, ◌*◌, ◌/◌, ◌^◌, ◌-◌, ◌≤◌, ◌≤ℤ◌, ◌<◌, ◌↔◌, pos, length, IsTrue, false};
ghost use Rattle.raster_rows.specs.Pixels.{IsDepth, IsPixel, pixel_size, sign_weight, least_pixel, greatest_pixel, number_at, value_of, pixel_at, number_of};
ghost use Rattle.raster_rows.specs.Pixels.{clamped, octets_of};

/// The greatest number of octets that a read asks for, and that a piece which is given has.
pub(crate) const PIECE: usize = 4096;

/// The octets and the range of a pixel.
#[derive(Clone, Copy)]
pub(crate) struct PixelForm {
    pub(crate) depth: u8,
    pub(crate) signed: bool,
    size: usize,
    sign: i32,
    least: i32,
    greatest: i32,
    ghost is_depth: { IsDepth depth },
    ghost size_is: { size ≡ pixel_size depth },
    ghost sign_is: { sign ≡ pos (sign_weight depth) },
    ghost least_is: { least ≡ least_pixel depth signed },
    ghost greatest_is: { greatest ≡ greatest_pixel depth signed },
}

impl PixelForm {
    pub(crate) fn new(depth: u8, signed: bool) -> PixelForm
        requires { IsDepth depth }
        ensures depth { result.depth ≡ depth }
        ensures signed { result.signed ≡ signed }
    {
        PixelForm {
            depth,
            signed,
            size: if depth <= 8 { 1 } else { 2 },
            sign: if depth <= 8 { 1 << 7 } else { 1 << 15 },
            least: least_pixel(depth, signed),
            greatest: greatest_pixel(depth, signed),
        }
    }

    /// Returns how many octets this number of pixels has.
    pub(crate) fn octets(self, pixels: usize) -> usize
        requires { pixels < 2 ^ 32 }
        ensures { result ≡ pixels * pixel_size self.depth }
    {
        if self.size == 1 { pixels } else { 2 * pixels }
    }

    /// Returns how many whole pixels this number of octets has.
    pub(crate) fn pixels(self, octets: usize) -> usize
        ensures { result ≡ octets / pixel_size self.depth }
    {
        if self.size == 1 { octets } else { octets / 2 }
    }

    // Returns the number that the octets of a pixel represent.
    fn number_at(self, octets: &[u8], place: usize) -> i32
        requires { (place + 1) * pixel_size self.depth ≤ length octets.now }
        ensures { result ≡ pos (number_at self.depth octets.now place) }
    {
        if self.depth <= 8 {
            i32::from(octets[place])
        } else {
            i32::from(u16::from_be_bytes([octets[2 * place], octets[2 * place + 1]]))
        }
    }

    /// Returns the pixel at a place of these octets.
    pub(crate) fn pixel_at(self, octets: &[u8], place: usize) -> i32
        requires { (place + 1) * pixel_size self.depth ≤ length octets.now }
        ensures { result ≡ pixel_at self.depth self.signed octets.now place }
    {
        let number = self.number_at(octets, place);
        if self.signed && number >= self.sign {
            number - 2 * self.sign
        } else {
            number
        }
    }

    /// Returns the nearest pixel to a value.
    #[tactic(auto, using(crate::proofs::Numbers::least_most, crate::proofs::Numbers::clamped_is))]
    pub(crate) fn nearest(self, value: i64) -> i32
        ensures value { result ≡ clamped self.depth self.signed value }
        ensures in_range { IsPixel self.depth self.signed result }
    {
        if value < i64::from(self.least) {
            return self.least;
        }
        if value > i64::from(self.greatest) {
            return self.greatest;
        }
        value as i32
    }

    /// Returns the number that represents a pixel.
    #[tactic(auto, using(crate::proofs::Numbers::pixel_spelt))]
    pub(crate) fn number_of(self, pixel: i32) -> u16
        requires { IsPixel self.depth self.signed pixel }
        ensures value { result ≡ number_of self.depth pixel }
        ensures octet { self.depth ≤ 8 → result < 256 }
    {
        if pixel < 0 {
            return (pixel + 2 * self.sign) as u16;
        }
        pixel as u16
    }

    /// Returns the greatest pixel, if pixels have no sign.
    pub(crate) fn plain_values(self) -> u64
        requires { self.signed ≡ false }
        ensures { pos result ≡ greatest_pixel self.depth self.signed }
    {
        self.greatest as u64
    }

    /// Returns the number that represents a pixel without a sign.
    #[tactic(auto, using(crate::proofs::Numbers::plain_spelt))]
    pub(crate) fn plain_number(self, pixel: i64) -> u16
        requires plain { self.signed ≡ false }
        requires pixel { IsPixel self.depth self.signed pixel }
        ensures value { result ≡ number_of self.depth pixel }
        ensures octet { self.depth ≤ 8 → result < 256 }
    {
        pixel as u16
    }

    /// Puts the octet of a number at the place of a pixel that has one.
    pub(crate) fn put_octet(self, into: &mut [u8], place: usize, number: u16)
        requires narrow { self.depth ≤ 8 }
        requires place { (place + 1) * pixel_size self.depth ≤ length into.old }
        requires octet { number < 256 }
        ensures { take ((place + 1) * pixel_size self.depth) into.new ≡ take (place * pixel_size self.depth) into.old ++ octets_of self.depth number }
    {
        into[place] = number as u8;
    }

    /// Puts the octets of a number at the place of a pixel that has two.
    pub(crate) fn put_octets(self, into: &mut [u8], place: usize, number: u16)
        requires wide { 8 < self.depth }
        requires place { (place + 1) * pixel_size self.depth ≤ length into.old }
        ensures { take ((place + 1) * pixel_size self.depth) into.new ≡ take (place * pixel_size self.depth) into.old ++ octets_of self.depth number }
    {
        into[2 * place] = (number / 256) as u8;
        into[2 * place + 1] = (number % 256) as u8;
    }

    /// Returns whether a value is in the range of pixels.
    pub(crate) fn holds(self, value: i32) -> bool
        ensures { IsTrue result ↔ IsPixel self.depth self.signed value }
    {
        self.least <= value && value <= self.greatest
    }
}

/// Returns half the number of values of a pixel.
#[tactic(auto, using(crate::proofs::Ranges::half_shift))]
pub(crate) fn half_range(depth: u8) -> i32
    requires { IsDepth depth }
    ensures value { result ≡ pos (2 ^ (depth - 1)) }
    ensures some { pos 1 ≤ℤ result }
    ensures most { result ≤ℤ pos (2 ^ 15) }
{
    (1u32 << (depth - 1)) as i32
}

// Returns the least value of a pixel.
fn least_pixel(depth: u8, signed: bool) -> i32
    requires { IsDepth depth }
    ensures { result ≡ least_pixel depth signed }
{
    if signed { -half_range(depth) } else { 0 }
}

// Returns the greatest value of a pixel.
#[tactic(auto, using(crate::proofs::Ranges::twice_half))]
fn greatest_pixel(depth: u8, signed: bool) -> i32
    requires { IsDepth depth }
    ensures { result ≡ greatest_pixel depth signed }
{
    let half = half_range(depth);
    if signed { half - 1 } else { 2 * half - 1 }
}
