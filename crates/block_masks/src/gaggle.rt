// What a call keeps in the states of blocks: for a gaggle in the state of its first block, for a block in its own state.

ghost use Rattle.std.specs.Prelude.{◌≡◌, ◌+◌, ◌*◌, ◌<◌, [], ◌∷◌, length};
ghost use Rattle.item_defs.specs.Bits.{digit};
ghost use Rattle.plane_defs.specs.Marks.{depth_of as depth_in};
ghost use Rattle.block_masks.specs.Gaggles.{low_bits, options_in, sent_in, families_in, options_at, sent_at, AreOptions};
ghost use Rattle.block_masks.specs.Stored.{Stores};

/// The state of a gaggle that lasts from one stage to the next (docs/formats.md, "Words and codes").
#[derive(Clone, Copy)]
pub struct Gaggle {
    /// The option of each length of words, 2 to 4.
    pub options: [u8; 3],
    /// Whether a word of that length was sent.
    pub sent: [bool; 3],
}

/// Returns the depth of a block, the last five bits of its state.
#[inline]
pub fn depth_of(mark: i32) -> u8
    ensures value { result ≡ depth_in mark }
    ensures within { result < 32 }
{
    mark.rem_euclid(32) as u8
}

// Returns the last 13 bits of a state.
#[inline]
fn low_bits_of(mark: i32) -> u32
    ensures value { result ≡ low_bits mark }
    ensures within { result < 8192 }
{
    mark.rem_euclid(8192) as u32
}

/// Returns which of a block's families are significant in the plane, from its state: bit i is for family i.
#[inline]
#[tactic(auto, unfolding(crate::specs::Gaggles::families_in))]
pub fn families_of(mark: i32) -> u64
    ensures value { result ≡ families_in mark }
    ensures within { result < 8 }
{
    mark.rem_euclid(65536) as u64 / 8192
}

/// Returns what the state of a gaggle's first block has of the gaggle, in the eight bits above the depth.
#[inline]
#[tactic(auto, unfolding(crate::specs::Gaggles::options_in, crate::specs::Gaggles::sent_in))]
pub fn gaggle_in(mark: i32) -> Gaggle
    ensures options { result.options ≡ options_in mark }
    ensures sent { result.sent ≡ sent_in mark }
{
    let low = low_bits_of(mark);
    let options = [
        (low / 32 % 2) as u8,
        (low / 64 % 4) as u8,
        (low / 256 % 4) as u8,
    ];
    let sent = [
        low / 1024 % 2 == 1,
        low / 2048 % 2 == 1,
        low / 4096 % 2 == 1,
    ];
    Gaggle { options, sent }
}

#[inline]
fn digit_of(bit: bool) -> u32
    ensures value { result ≡ digit bit }
    ensures within { result < 2 }
{
    if bit { 1 } else { 0 }
}

// Returns a state with this depth, these options and these flags.
#[inline]
fn packed_mark(depth: u8, options: (u8, u8, u8), sent: (bool, bool, bool)) -> i32
    requires below { depth < 32 }
    requires two { options.0 < 2 }
    requires three { options.1 < 3 }
    requires four { options.2 < 4 }
    ensures depth_kept { depth_in result ≡ depth }
    ensures options { options_in result ≡ options.0 ∷ options.1 ∷ options.2 ∷ [] }
    ensures sent { sent_in result ≡ sent.0 ∷ sent.1 ∷ sent.2 ∷ [] }
    ensures families { families_in result ≡ 0 }
{
    let chosen = 32 * u32::from(options.0) + 64 * u32::from(options.1) + 256 * u32::from(options.2);
    let opened = 1024 * digit_of(sent.0) + 2048 * digit_of(sent.1) + 4096 * digit_of(sent.2);
    let low = u32::from(depth) + chosen + opened;
    low as i32
}

/// Returns a state with this depth and this state of a gaggle, and no family. The depth is below 32, and the options for
/// words of two, three and four bits are below 2, 3 and 4.
#[inline]
#[tactic(auto, using(crate::proofs::MarkParts::three_of))]
pub fn mark_of(depth: u8, gaggle: Gaggle) -> i32
    requires below { depth < 32 }
    requires known { AreOptions gaggle.options }
    ensures depth_kept { depth_in result ≡ depth }
    ensures options { options_in result ≡ gaggle.options }
    ensures sent { sent_in result ≡ gaggle.sent }
    ensures families { families_in result ≡ 0 }
{
    let options = (gaggle.options[0], gaggle.options[1], gaggle.options[2]);
    let sent = (gaggle.sent[0], gaggle.sent[1], gaggle.sent[2]);
    packed_mark(depth, options, sent)
}

/// Returns the state with these families, of which bit i is for family i; the other bits stay.
#[inline]
pub fn with_families(mark: i32, families: u64) -> i32
    requires { families < 8 }
    ensures depth { depth_in result ≡ depth_in mark }
    ensures options { options_in result ≡ options_in mark }
    ensures sent { sent_in result ≡ sent_in mark }
    ensures families { families_in result ≡ families }
{
    let whole = low_bits_of(mark) + 8192 * families as u32;
    whole as i32
}

/// Returns what the states keep of gaggle g.
#[inline]
pub fn load(marks: &[i32], g: usize) -> Gaggle
    requires { 16 * g < length marks.now }
    ensures options { result.options ≡ options_at marks.now g }
    ensures sent { result.sent ≡ sent_at marks.now g }
{
    gaggle_in(marks[16 * g])
}

/// Stores the state of gaggle g in `marks`; their depths and families stay. There is a state for the first block of the
/// gaggle, and the options for words of two, three and four bits are below 2, 3 and 4.
#[inline]
pub fn store(marks: &mut [i32], g: usize, gaggle: Gaggle)
    requires within { 16 * g < length marks.old }
    requires known { AreOptions gaggle.options }
    ensures { Stores marks.old marks.new g gaggle }
{
    let mark = marks[16 * g];
    let kept = mark_of(depth_of(mark), gaggle);
    marks[16 * g] = with_families(kept, families_of(mark));
}
