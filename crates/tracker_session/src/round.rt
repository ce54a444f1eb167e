//! One connection of a device.
ghost use Rattle.std.specs.Prelude.{◌↔◌, ◌≡◌, ◌⊎◌, ◌+◌, ◌<◌, ◌≤◌, ◌^◌, ◌++◌, [], true, false, length, take, IfNone, Some, IsSome, ℕ, List, Ok};
ghost use Rattle.avl_values.specs.Causes.{Rose};
ghost use Rattle.layout.specs.Bytes.{AreBytes};
ghost use Rattle.flash_ring.specs.Entries.{held_of};
ghost use Rattle.flash_ring.specs.Ring.{IsDurable};
ghost use Rattle.tracker_session.specs.RoundStates.{RoundState, round_by, round_of};
ghost use Rattle.tracker_session.specs.Rounds.{Ends, IsRound};
ghost use Rattle.tracker_session.specs.Trackers.{IsSameDevice, silent};
ghost use Rattle.tracker_session.specs.Turns.{Begins, BreaksWith, CanReact, IsBroken, IsReady, Lessens, Reacts, SendsAnswer, SendsBatch, Takes, records_left};
ghost use Rattle.tracker_session.specs.declared.heard.Hearing.{Hearing};
ghost use Rattle.tracker_session.specs.declared.heard.Hearing.TheVariants.{Done};

use crate::heard::{Heard, Hearing};
use crate::round_end::RoundEnd;
use crate::shell::Shell;
use crate::tracker::Tracker;
use arrayvec::ArrayVec;
use avl_values::MediumFault;
use frame_channel::{Link, send};
use medium_model::Medium;

/// How many commands are obeyed in a round (this project's own).
const MOST_ORDERS: u8 = 16;

/// How many batches may still be sent, how many commands were obeyed, and how many records were counted.
#[derive(Clone, Copy)]
pub struct Progress {
    pub left: u32,
    pub orders: u8,
    pub done: u32,
}

/// Sends the next batch, where one may be sent and a slot is open.
fn send_batch<M: Medium, L: Link>(
    tracker: &mut Tracker<M>,
    link: &mut L,
    progress: &mut Progress,
) -> Option<Result<RoundEnd, MediumFault>>
    requires talking { tracker.old.talking ≡ true }
    requires accepted { tracker.old.answered ≡ true }
    requires none { tracker.old.batch ≡ [] }
    ensures sends { SendsBatch result tracker.old tracker.new progress.old progress.new (L.state link.old).told (L.state link.new).told }
    ensures broken { IsBroken result (L.state link.old) (L.state link.new) }
    ensures same { IsSameDevice tracker.old tracker.new }
    ensures follows { L.follows link.old link.new }
{
    if progress.left == 0 {
        return Some(Ok(RoundEnd::Done(progress.done)));
    }
    let mut frame = ArrayVec::<u8, 1280>::new();
    if tracker.next_batch(&mut frame) == 0 {
        return Some(Ok(RoundEnd::Done(progress.done)));
    }
    progress.left -= 1;
    match send(link, &frame) {
        Ok(()) => None,
        Err(_) => Some(Ok(RoundEnd::Broken)),
    }
}

/// Sends the answer to a command.
fn send_answer<L: Link>(
    link: &mut L,
    answer: &[u8],
    progress: &mut Progress,
) -> Option<Result<RoundEnd, MediumFault>>
    requires { progress.old.orders < 16 }
    ensures sends { SendsAnswer result answer.now progress.old progress.new (L.state link.old).told (L.state link.new).told }
    ensures broken { IsBroken result (L.state link.old) (L.state link.new) }
    ensures follows { L.follows link.old link.new }
{
    progress.orders += 1;
    match send(link, answer) {
        Ok(()) => None,
        Err(_) => Some(Ok(RoundEnd::Broken)),
    }
}

/// Does what follows from what was heard. `out` holds the answer to a command.
fn react<M: Medium, L: Link>(
    tracker: &mut Tracker<M>,
    link: &mut L,
    progress: &mut Progress,
    heard: Heard,
    out: &[u8],
) -> Option<Result<RoundEnd, MediumFault>>
    requires { CanReact heard tracker.old progress.old }
    ensures reacts { Reacts (Done heard) result tracker.old tracker.new out.now progress.old progress.new (L.state link.old).told (L.state link.new).told }
    ensures broken { IsBroken result (L.state link.old) (L.state link.new) }
    ensures same { IsSameDevice tracker.old tracker.new }
    ensures follows { L.follows link.old link.new }
{
    match heard {
        Heard::More => None,
        Heard::Accepted => send_batch(tracker, link, progress),
        Heard::Released(count) => {
            progress.done += count as u32;
            send_batch(tracker, link, progress)
        }
        Heard::Answer => send_answer(link, out, progress),
        Heard::Refused => Some(Ok(RoundEnd::Refused)),
        Heard::Wrong(got) => Some(Ok(RoundEnd::WrongAnswer { got })),
        Heard::MediumFault => Some(Err(MediumFault)),
    }
}

/// Hears at most one item, and does what follows from it.
fn take_one<M: Medium, L: Link, S: Shell>(
    tracker: &mut Tracker<M>,
    link: &mut L,
    shell: &mut S,
    progress: &mut Progress,
    rest: &[u8],
) -> (usize, Option<Result<RoundEnd, MediumFault>>)
    requires ready { IsReady tracker.old }
    requires some { 0 < length rest.now }
    requires orders { progress.old.orders ≤ 16 }
    requires records { records_left tracker.old progress.old < 2 ^ 32 }
    ensures takes { Takes (record { says = S.says; obeyed = S.obeyed }) result.1 tracker.old tracker.new rest.now result.0 shell.old shell.new progress.old progress.new (L.state link.old).told (L.state link.new).told }
    ensures took { (0 < result.0) × (result.0 ≤ length rest.now) }
    ensures bytes { AreBytes rest.now }
    ensures ready { IfNone result.1 (IsReady tracker.new) }
    ensures less { IfNone result.1 (Lessens tracker.old tracker.new progress.old progress.new) }
    ensures broken { IsBroken result.1 (L.state link.old) (L.state link.new) }
    ensures same { IsSameDevice tracker.old tracker.new }
    ensures follows { L.follows link.old link.new }
{
    let mut out = ArrayVec::<u8, 1280>::new();
    let obeys = progress.orders < MOST_ORDERS;
    let (n, hearing) = tracker.hear_some(rest, shell, &mut out, obeys);
    match hearing {
        Hearing::Unobeyed => (n, Some(Ok(RoundEnd::TooManyCommands))),
        Hearing::Done(heard) => {
            let ended = react(tracker, link, progress, heard, &out);
            tracker.look();
            (n, ended)
        }
    }
}

/// Reads pieces until the round ends.
fn listen<M: Medium, L: Link, S: Shell>(
    tracker: &mut Tracker<M>,
    link: &mut L,
    shell: &mut S,
    progress: &mut Progress,
) -> Result<RoundEnd, MediumFault>
    requires ready { IsReady tracker.old }
    requires begins { Begins tracker.old progress.old }
    requires records { records_left tracker.old progress.old < 2 ^ 32 }
    ensures ends { (taken : List ℕ) × (state : RoundState S) × AreBytes taken × Ends (record { says = S.says; obeyed = S.obeyed }) (round_of tracker.old progress.old shell.old) (Rose (L.state link.old).faults (L.state link.new).faults) result taken state tracker.old.ring tracker.new.ring shell.new (L.state link.old).told (L.state link.new).told }
    ensures broken { BreaksWith result (L.state link.old) (L.state link.new) }
    ensures same { IsSameDevice tracker.old tracker.new }
    ensures follows { L.follows link.old link.new }
{
    let mut buffer = [0; 1024];
    'reads: loop {
        let count = match link.read(&mut buffer) {
            Ok(count) => count,
            Err(_) => return Ok(RoundEnd::Broken),
        };
        if count == 0 {
            return Ok(RoundEnd::Broken);
        }
        let mut at = 0;
        'items: while at < count {
            let (n, ended) = take_one(tracker, link, shell, progress, &buffer[at..count]);
            at += n;
            match ended {
                Some(end) => return end,
                None => {}
            }
        }
    }
}

/// One connection.
pub fn connect<M: Medium, L: Link, S: Shell>(
    tracker: &mut Tracker<M>,
    link: &mut L,
    shell: &mut S,
    most: u32,
) -> Result<RoundEnd, MediumFault>
    requires up { tracker.old.ring.down ≡ false }
    requires some { 0 < most }
    ensures silent { tracker.new ≡ silent (record tracker.old { ring = tracker.new.ring }) }
    ensures round { (state : RoundState S) × IsRound (record { says = S.says; obeyed = S.obeyed }) (round_by tracker.old most shell.old) (Rose (L.state link.old).faults (L.state link.new).faults) state tracker.old.ring tracker.new.ring shell.new (L.state link.old).told (L.state link.new).told result }
    ensures empty { result ≡ Ok RoundEnd.Empty ↔ (held_of tracker.old.ring.slots ≡ []) }
    ensures nothing { result ≡ Ok RoundEnd.Empty → (link.new ≡ link.old) × (shell.new ≡ shell.old) × (tracker.new.ring ≡ tracker.old.ring) }
    ensures broken { BreaksWith result (L.state link.old) (L.state link.new) }
    ensures follows { L.follows link.old link.new }
{
    tracker.fall_silent();
    if tracker.ring().held() == 0 {
        return Ok(RoundEnd::Empty);
    }
    let login = tracker.dial_in();
    match send(link, &login) {
        Ok(()) => {}
        Err(_) => {
            tracker.fall_silent();
            return Ok(RoundEnd::Broken);
        }
    }
    tracker.look();
    let mut progress = Progress {
        left: most,
        orders: 0,
        done: 0,
    };
    let ended = listen(tracker, link, shell, &mut progress);
    tracker.fall_silent();
    ended
}
