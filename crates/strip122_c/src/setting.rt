// A setting as C has it.
ghost use Rattle.std.specs.Prelude.{◌≡◌, IfOk, IsTrue};
ghost use Rattle.base_122.specs.declared.setting.Setting.{Setting as SettingValue};
ghost use Rattle.plane_defs.specs.Codes.{is_book_sound};
ghost use Rattle.strip122_c.specs.Settings.{book_in, select_of, setting_in, setting_with, refusal_answer};

use base_122::{Book, Select, Setting, Stop, Weights};
use code_book::{BookFault, read_book};
use encoder_rows::OctetsIn;

/// A setting of the encoder. A flag is set by each number except 0.
#[repr(C)]
#[derive(Clone, Copy, Debug, PartialEq, Eq)]
pub struct Strip122Setting {
    /// The size of this structure.
    pub size: u32,
    pub width: u32,
    pub rows: u32,
    pub segment: u32,
    pub limit: u32,
    pub packet: u32,
    pub total: u64,
    pub apid: u16,
    pub image: u16,
    pub depth: u8,
    pub is_signed: u8,
    pub fill: u8,
    pub word: u8,
    pub stop_dc: u8,
    pub stop_plane: u8,
    pub stop_stage: u8,
    pub optimal: u8,
    pub weights: [u8; 10],
    /// Whether `book` is the code book; otherwise it is that of the profile.
    pub has_book: u8,
    /// The octets of a code book (docs/formats.md, "Words and codes").
    pub book: [u8; 138],
}

// The size of a setting.
const SIZE: u32 = 200;

const _: () = prove!(size_of::<Strip122Setting>() == 200);

/// The reason why a structure gives no setting, or no wish.
#[derive(Clone, Copy, Debug, PartialEq, Eq)]
pub enum SettingRefusal {
    /// Its first field is not its size.
    WrongSize,
    /// Its book is not the octets of a sound code book.
    BadBook,
}

/// Returns the setting of an encoder. Its book is sound.
pub(crate) fn read_setting(setting: &Strip122Setting) -> Result<Setting, SettingRefusal>
    ensures value { result ≡ setting_in setting.now }
    ensures book { IfOk result (λ (s : SettingValue). IsTrue (is_book_sound s.book)) }
{
    if setting.size != SIZE {
        return Err(SettingRefusal::WrongSize);
    }
    match read_book_in(setting.has_book, &setting.book) {
        Ok(book) => Ok(setting_with(setting, &book)),
        Err(_) => Err(SettingRefusal::BadBook),
    }
}

/// Returns the code book of a structure: that of these octets if it has one, otherwise that of the profile.
pub(crate) fn read_book_in(has_book: u8, octets: &[u8; 138]) -> Result<Book, BookFault>
    ensures value { result ≡ book_in has_book octets.now }
    ensures sound { IfOk result (λ book. IsTrue (is_book_sound book)) }
{
    if has_book == 0 {
        return Ok(Book::profile());
    }
    let mut port = OctetsIn::new(octets);
    read_book(&mut port)
}

// Returns the setting with this code book.
fn setting_with(setting: &Strip122Setting, book: &Book) -> Setting
    ensures { result ≡ setting_with setting.now book.now }
{
    let stop = Stop {
        dc: setting.stop_dc != 0,
        plane: setting.stop_plane,
        stage: setting.stop_stage,
    };
    let weights = Weights {
        shifts: setting.weights,
    };
    Setting {
        width: setting.width,
        rows: setting.rows,
        depth: setting.depth,
        signed: setting.is_signed != 0,
        segment: setting.segment,
        limit: setting.limit,
        fill: setting.fill != 0,
        word: setting.word,
        stop,
        weights,
        select: select_of(setting.optimal),
        apid: setting.apid,
        image: setting.image,
        packet: setting.packet,
        total: setting.total,
        book: *book,
    }
}

fn select_of(optimal: u8) -> Select
    ensures { result ≡ select_of optimal }
{
    if optimal == 0 {
        Select::Heuristic
    } else {
        Select::Optimal
    }
}

/// Returns the answer to a call with a structure that gives no setting, or no wish.
pub(crate) fn refusal_answer(refusal: SettingRefusal) -> u32
    ensures { result ≡ refusal_answer refusal }
{
    match refusal {
        SettingRefusal::BadBook => 12,
        SettingRefusal::WrongSize => 13,
    }
}
