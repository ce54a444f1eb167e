//! The table of what a command has.
ghost use Rattle.std.specs.Prelude.{◌≡◌, ◌≤◌, Some};
ghost use Rattle.command_layout.specs.Table.{is_among, least_size, row_of};
ghost use Rattle.command_codecs.specs.Views.{found_row, kinds_of, row_is};

use command_layout::Way;

/// The types that may be in a command of a codec and way.
#[derive(Clone, Copy)]
pub enum Kinds {
    /// `05`.
    Order,
    /// `06`.
    Response,
    /// `06` or `11`.
    ResponseOrRefusal,
    /// `0B`.
    Message,
}

/// The types that may be in a command of a codec and way, and whether its content has a time and an IMEI.
#[derive(Clone, Copy)]
pub struct Row {
    /// The types that may be in it.
    pub kinds: Kinds,
    /// Whether its content begins with a time.
    pub time: bool,
    /// Whether an IMEI comes before its text.
    pub imei: bool,
}

/// A command with these types, of a codec that has a time, an IMEI, both or neither.
fn some_row(kinds: Kinds, time: bool, imei: bool) -> Option<Row>
    ensures { found_row result ≡ Some (record { kinds = kinds_of kinds; time = time; imei = imei }) }
{
    Some(Row { kinds, time, imei })
}

/// The row of a codec id; None exactly where no command of this codec passes this way.
pub fn row_of(way: Way, id: u8) -> Option<Row>
    ensures { found_row result ≡ row_of way id }
{
    match way {
        Way::Up => match id {
            0x0c => some_row(Kinds::Response, false, false),
            0x0d => some_row(Kinds::Response, true, false),
            0x0e => some_row(Kinds::ResponseOrRefusal, false, true),
            0x0f => some_row(Kinds::Message, true, true),
            _ => None,
        },
        Way::Down => match id {
            0x0c => some_row(Kinds::Order, false, false),
            0x0e => some_row(Kinds::Order, false, true),
            _ => None,
        },
    }
}

impl Row {
    /// The least size of the content: 4 bytes of time, and 8 of an IMEI.
    pub fn least(&self) -> u32
        ensures is { result ≡ least_size (row_is self.now) }
        ensures few { result ≤ 12 }
    {
        match (self.time, self.imei) {
            (true, true) => 12,
            (true, false) => 4,
            (false, true) => 8,
            (false, false) => 0,
        }
    }

    /// Whether a type is one of the row's.
    pub fn has_kind(&self, kind: u8) -> bool
        ensures { result ≡ is_among kind (kinds_of self.now.kinds) }
    {
        match self.kinds {
            Kinds::Order => kind == 0x05,
            Kinds::Response => kind == 0x06,
            Kinds::ResponseOrRefusal => kind == 0x06 || kind == 0x11,
            Kinds::Message => kind == 0x0b,
        }
    }
}
