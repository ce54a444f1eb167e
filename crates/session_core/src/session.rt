ghost use Rattle.std.specs.Prelude.{◌≡◌, true, false, not, if◌then◌else◌, length, IfOk};
ghost use Rattle.item_streams.specs.Readers.{fresh};
ghost use Rattle.layout.specs.Rows.{short};
ghost use Rattle.frame_layout.specs.UpRows.{up_verdict};
ghost use Rattle.record_layout.specs.RecordsOf.{count_of};
ghost use Rattle.session_core.specs.Sessions.{Heard, IsReady, new_session, Owes};
ghost use Rattle.session_core.specs.Talks.{count_for};

use avl_values::{Fault, Imei, NoMemory};
use frame_channel::{Up, UpItem};
use shelf::Receipt;
use std::alloc::Global;
use std::marker::Model;

/// What a session wants, by the bytes that it heard.
#[derive(Clone, Copy, Debug, PartialEq, Eq)]
pub enum Step {
    /// Fewer bytes than an item.
    More,
    /// The login of this device, to be answered by `answer_login`.
    Login(Imei),
    /// A data frame, whose body is to be admitted and answered by `answer_packet`.
    Packet,
    /// The frame of a response, whose body says the rest.
    Response,
    /// No item can begin with these bytes. The fault's place is counted from the item's first byte.
    Broken(Fault),
}

/// A server's session, with no link and no archive. Contracts see what its reader has, the login's IMEI, whether the last item
/// still has to be answered, and whether the login was refused.
#[derive(Drop)]
pub struct Session {
    up: Up,
    imei: Option<Imei>,
    owes: bool,
    refused: bool,
}

impl Model for Session {
    ghost use Rattle.std.specs.Prelude.{◌≡◌};
    ghost use Rattle.session_core.specs.Sessions.{SessionState, is_there};

    ghost Value = { SessionState };

    ghost view = { λ s. record { reader = s.up; imei = s.imei; owes = s.owes; refused = s.refused } };

    ghost invariant = { λ s. s.up.after_first ≡ is_there s.imei };
}

impl Session {
    /// A session before the login. NoMemory where its buffers aren't given; nothing is made then.
    pub fn new(alloc: Global) -> Result<Session, NoMemory>
        ensures { IfOk result (λ session. session ≡ new_session) }
    {
        Ok(Session {
            up: Up::new(alloc)?,
            imei: None,
            owes: false,
            refused: false,
        })
    }

    /// Takes bytes up to and including the one that decides the item, or the whole piece, and says how many. The last login or
    /// packet was answered, no Broken was given, and no login was refused.
    pub fn hear(&mut self, piece: &[u8]) -> (usize, Step)
        requires { IsReady self.old }
        ensures { Heard self.old self.new piece.now result.0 result.1 }
    {
        let (n, item) = self.up.push(piece);
        match item {
            UpItem::More => (n, Step::More),
            UpItem::Login(imei) => {
                self.imei = Some(imei);
                self.owes = true;
                (n, Step::Login(imei))
            }
            UpItem::Packet(_) => {
                self.owes = true;
                (n, Step::Packet)
            }
            UpItem::Response => (n, Step::Response),
            UpItem::Broken(found) => (n, Step::Broken(found)),
        }
    }

    /// The body of the frame that was last whole, empty before the first.
    pub fn body(&self) -> &[u8]
        ensures { result.now ≡ self.now.reader.body }
    {
        self.up.body()
    }

    /// How many bytes it has of its unfinished item. Unless Broken was given no verdict on them has come.
    pub fn have(&self) -> u32
        ensures is { result ≡ length self.now.reader.have }
        ensures unfinished { self.now.reader.failed ≡ false → up_verdict self.now.reader.after_first self.now.reader.have ≡ short }
    {
        self.up.have()
    }

    /// The login's IMEI, once it was heard.
    pub fn imei(&self) -> Option<Imei>
        ensures { result ≡ self.now.imei }
    {
        self.imei
    }

    /// Answers the login that was heard last: `01` where the device is known, and otherwise `00`, which ends the session.
    pub fn answer_login(&mut self, known: bool) -> u8
        requires { Owes self.old }
        ensures answer { result ≡ (if known then 1 else 0) }
        ensures state { self.new ≡ record self.old { owes = false; refused = not known } }
    {
        self.owes = false;
        self.refused = !known;
        if known { 1 } else { 0 }
    }

    /// Answers the packet that was heard last and admitted with this receipt: its number of records in four bytes.
    pub fn answer_packet(&mut self, receipt: &Receipt) -> [u8; 4]
        requires owes { Owes self.old }
        requires receipt { receipt.now.count ≡ count_of self.old.reader.body }
        ensures answer { result ≡ count_for self.old.reader.body }
        ensures state { self.new ≡ record self.old { owes = false } }
    {
        self.owes = false;
        u32::from(receipt.count).to_be_bytes()
    }
}
