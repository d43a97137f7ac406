ghost use Rattle.std.specs.Prelude.{◌≡◌, ◌≢◌, ◌↔◌, Ok};
ghost use Rattle.base_122.specs.Sizes.{sample_need};
ghost use Rattle.base_122.specs.Ranges.{IsInRange, is_within, limit_test, total_range};

use crate::book::Book;
use crate::field::{Field, OutOfRange};
use crate::geometry::Geometry;
use crate::range::FieldRange;
use crate::weights::Weights;

/// The setting of a writer: the image, its segments, where they stop and how the packets are made.
#[derive(Clone, Copy, Debug, PartialEq, Eq)]
pub struct Setting {
    /// The number of pixels of a row.
    pub width: u32,
    /// The number of rows of the image; if it is 0, the height is open until the input ends, and it is reported last.
    pub rows: u32,
    /// The number of bits of a pixel.
    pub depth: u8,
    pub signed: bool,
    /// The number of blocks of a segment.
    pub segment: u32,
    /// The greatest number of octets of a coded segment, with its header; 0 is no limit.
    pub limit: u32,
    /// Whether each coded segment is filled up to its limit.
    pub fill: bool,
    /// The number of octets of a code word: the length of a coded segment is a multiple of it.
    pub word: u8,
    pub stop: Stop,
    pub weights: Weights,
    pub select: Select,
    /// The APID of the packets.
    pub apid: u16,
    /// The number of the image.
    pub image: u16,
    /// The greatest length of a packet data field, in octets.
    pub packet: u32,
    /// The greatest number of octets of all coded segments together, with their headers; 0 is no bound.
    pub total: u64,
    /// The code book with which coded segments are written. No range is tested of it.
    pub book: Book,
}

/// Where the coding of a segment stops (docs/formats.md, "Stops, cut and fill").
#[derive(Clone, Copy, Debug, PartialEq, Eq)]
pub struct Stop {
    /// Whether only the DC coefficients are sent.
    pub dc: bool,
    /// The last bit plane that is sent.
    pub plane: u8,
    /// Its last stage, minus 1.
    pub stage: u8,
}

/// How a gaggle's code option is chosen (docs/formats.md, "Numbers by differences").
#[derive(Clone, Copy, Debug, PartialEq, Eq)]
pub enum Select {
    Heuristic,
    Optimal,
}

// The fields of a setting in the order in which they are tested.
const FIELDS: [Field; 13] = [
    Field::Width,
    Field::Rows,
    Field::Depth,
    Field::Segment,
    Field::Limit,
    Field::Fill,
    Field::Word,
    Field::Stop,
    Field::Weights,
    Field::Apid,
    Field::Image,
    Field::Packet,
    Field::Total,
];

impl Setting {
    ghost use Rattle.base_122.specs.Ranges.{IsWithin, rows_range, field_test, first_out_of_range, range_check, total_test};
    ghost use Rattle.base_122.specs.Setting.{geometry_of, image_geometry, usual_setting};

    /// Returns the usual setting for an image of this size: unsigned pixels of 8 bits, segments of 64 blocks without a limit or
    /// a stop, code words of one octet, the usual weights, APID 100, image 0, packet data fields of at most 1,024 octets, and the code
    /// book of the profile.
    pub fn usual(width: u32, rows: u32) -> Setting
        ensures { result ≡ usual_setting width rows }
    {
        Setting {
            width,
            rows,
            depth: 8,
            signed: false,
            segment: 64,
            limit: 0,
            fill: false,
            word: 1,
            stop: Stop {
                dc: false,
                plane: 0,
                stage: 3,
            },
            weights: Weights::usual(),
            select: Select::Optimal,
            apid: 100,
            image: 0,
            packet: 1024,
            total: 0,
            book: Book::profile(),
        }
    }

    /// Returns `Ok` exactly if each field is in its range (docs/formats.md, "Bounds"), otherwise the first that
    /// is not, in the order of `Field`.
    ///
    /// Whether the limit is a multiple of the code word length is tested only if `word` is 1 to 4. `Fill` is refused
    /// exactly if `fill` is set and there is neither a limit nor a total. `Total` is refused exactly if there is a total,
    /// and the rows are left open, or there is a limit too, or it is below 36 octets for each segment or above 2^40.
    pub fn check(&self) -> Result<(), OutOfRange>
        ensures range { (result ≡ Ok tt) ↔ IsInRange self.now }
        ensures first { result ≡ range_check self.now }
    {
        match self.first_out_of_range() {
            Some(field) => Err(OutOfRange { field }),
            None => Ok(()),
        }
    }

    fn first_out_of_range(&self) -> Option<Field>
        ensures { result ≡ first_out_of_range self.now }
    {
        FIELDS
            .iter()
            .copied()
            .find(|field| !self.is_in_range(*field))
    }

    fn is_in_range(&self, field: Field) -> bool
        ensures { result ≡ field_test self.now field }
    {
        match field {
            Field::Width => FieldRange::WIDTH.contains(u64::from(self.width)),
            Field::Rows => self.rows == 0 || FieldRange::ROWS.contains(u64::from(self.rows)),
            Field::Depth => FieldRange::DEPTH.contains(u64::from(self.depth)),
            Field::Segment => FieldRange::SEGMENT.contains(u64::from(self.segment)),
            Field::Limit => is_limit_in_range(u64::from(self.limit), u64::from(self.word)),
            Field::Fill => !self.fill || self.limit != 0 || self.total != 0,
            Field::Word => FieldRange::WORD.contains(u64::from(self.word)),
            Field::Stop => {
                FieldRange::PLANE.contains(u64::from(self.stop.plane))
                    && FieldRange::STAGE.contains(u64::from(self.stop.stage))
            }
            Field::Weights => self.weights.are_in_range(),
            Field::Apid => FieldRange::APID.contains(u64::from(self.apid)),
            Field::Image => FieldRange::IMAGE.contains(u64::from(self.image)),
            Field::Packet => FieldRange::PACKET.contains(u64::from(self.packet)),
            Field::Total => self.keeps_total_range(),
            // A setting has no such bounds, and no number of cameras.
            Field::Pixels | Field::Octets | Field::Cameras => true,
        }
    }

    // Returns whether there is no bound on all texts together, or the bound is in its range and can be kept. If a segment
    // has no blocks, the bound needn't be in its range, so that the blocks are refused.
    fn keeps_total_range(&self) -> bool
        ensures { result ≡ total_test self.now }
    {
        if self.total == 0 {
            return true;
        }
        if self.rows == 0 || self.limit != 0 {
            return false;
        }
        let blocks = u64::from(self.width.div_ceil(8)) * u64::from(self.rows.div_ceil(8));
        let segment = u64::from(self.segment);
        segment == 0 || is_total_in_range(self.total, blocks.div_ceil(segment))
    }

    /// Returns the geometry of the image, with the setting's own fields.
    pub fn geometry(&self) -> Geometry
        requires { self.now.rows ≢ 0 }
        ensures { result ≡ geometry_of self.now }
    {
        self.with_rows(self.rows)
    }

    /// Returns the geometry of an image of this number of rows, with the setting's other fields. A setting that leaves the rows open
    /// has this geometry after the rows are known.
    pub fn geometry_for(&self, rows: u32) -> Geometry
        requires { IsWithin rows_range rows }
        ensures { result ≡ image_geometry self.now rows }
    {
        self.with_rows(rows)
    }

    fn with_rows(&self, rows: u32) -> Geometry
        ensures { result ≡ image_geometry self.now rows }
    {
        Geometry {
            width: self.width,
            rows,
            depth: self.depth,
            signed: self.signed,
            segment: self.segment,
            image: self.image,
            word: self.word,
            weights: self.weights,
        }
    }
}

/// Returns whether a limit is 0, or in its range and a multiple of the code word length. If the code word length is out of
/// range, the limit needn't be a multiple of it, so that the code word length itself is refused.
pub fn is_limit_in_range(limit: u64, word: u64) -> bool
    ensures { result ≡ limit_test limit word }
{
    if limit == 0 {
        return true;
    }
    if !FieldRange::LIMIT.contains(limit) {
        return false;
    }
    !FieldRange::WORD.contains(word) || limit % word == 0
}

/// Returns whether a bound on all texts together is in its range for an image of this number of segments.
pub fn is_total_in_range(total: u64, segments: u64) -> bool
    ensures { result ≡ is_within (total_range segments) total }
{
    36 * u128::from(segments) <= u128::from(total) && total <= 1 << 40
}

/// Returns the greatest number of samples that the encoder holds (docs/formats.md, "Bounds"): 64 for each
/// padded column and 65 for each block of a segment.
pub fn need(setting: &Setting) -> u64
    requires { IsInRange setting.now }
    ensures { result ≡ sample_need setting.now.width setting.now.segment }
{
    64 * (8 * u64::from(setting.width.div_ceil(8))) + 65 * u64::from(setting.segment)
}
