ghost use Rattle.std.specs.Prelude.{◌≡◌, ◌<◌, ◌≤◌, ◌-◌, ◌^◌, ℕ, List, Option, Some, IfOk, IfSome, OnErr, option_map};
ghost use Rattle.std.specs.Borrow.{Lends as LendsRow, sem};
ghost use Rattle.doors.specs.Doors.{IsUnused};
ghost use Rattle.fmb_host.specs.Host.{HandsOut, HandsOutBench, HandsOutDoor, HandsOutMedium, HandsOutWire, HostView, IsNewBench, IsNewDoor, TakesBack, TakesBackBench, TakesBackDoor, TakesBackMedium, TakesBackWire, seen_door, with_host_fault};

use avl_values::{Failed, NoMemory};
use doors::Door;
use links::Link;
use medium_model::{Bench, Medium};
use text_streams::{Sink, Source};
use trial_model::Outcome;

/// How often the host's own opens, dials and doors have failed, and how many texts, media and doors came back that had failed.
#[derive(Clone, Copy, Debug, PartialEq, Eq)]
pub struct Counts {
    /// Opens, dials and doors that failed.
    pub host: u64,
    /// Texts that came back with a count of faults other than 0.
    pub texts: u64,
    /// Media that came back with a count of faults other than 0.
    pub media: u64,
    /// Doors that came back with a count of faults other than 0.
    pub doors: u64,
}

/// What a program works on: it hands out texts, media, links, doors and benches and takes them back, keeps the outcome of a trial, and
/// lends the sink. What it hands out has not failed yet. No call changes more than its contract says.
pub trait Host {
    type Text: Source + Drop;

    type Out: Sink + Drop;

    type Rig: Bench;

    type File: Medium;

    type Wire: Link;

    type Gate: Door;

    /// The host as contracts see it.
    ghost view: { Self → HostView };

    /// The host with another sink.
    ghost with_sink: { Self → Self.Out → Self };

    fn counts(&self) -> Counts
        ensures { result ≡ (view self.now).counts };

    /// Hands out a text. `Failed` counts.
    fn open_text(&mut self, name: &str) -> Result<Self::Text, Failed>
        requires { (view self.old).counts.host < 2 ^ 64 - 1 }
        ensures handed { IfOk result (λ text. HandsOut (view self.old) (Self.Text.state text) (view self.new)) }
        ensures fresh { IfOk result (λ text. (Self.Text.state text).faults ≡ 0) }
        ensures named { IfOk result (λ text. IfSome (Self.Text.state text).name (λ told. told ≡ name.now)) }
        ensures failed { OnErr result (view self.new ≡ with_host_fault (view self.old)) };

    /// Takes a text back, and counts it where it has failed. It takes no memory.
    fn text_back(&mut self, text: Self::Text)
        requires { (view self.old).counts.texts < 2 ^ 64 - 1 }
        ensures { TakesBack (view self.old) (Self.Text.state text) (view self.new) };

    /// Hands out the medium of this name, and makes an empty one where there is none. `Failed` counts.
    fn open_medium(&mut self, name: &str) -> Result<Self::File, Failed>
        requires { (view self.old).counts.host < 2 ^ 64 - 1 }
        ensures handed { IfOk result (λ medium. HandsOutMedium (view self.old) name.now (Self.File.state medium) (view self.new)) }
        ensures fresh { IfOk result (λ medium. (Self.File.state medium).faults ≡ 0) }
        ensures failed { OnErr result (view self.new ≡ with_host_fault (view self.old)) };

    /// Takes a medium back, and counts it where it has failed. It takes no memory.
    fn medium_back(&mut self, medium: Self::File)
        requires { (view self.old).counts.media < 2 ^ 64 - 1 }
        ensures { TakesBackMedium (view self.old) (Self.File.state medium) (view self.new) };

    /// Connects to an address, and hands out the link. `Failed` counts.
    fn dial(&mut self, address: &str) -> Result<Self::Wire, Failed>
        requires { (view self.old).counts.host < 2 ^ 64 - 1 }
        ensures handed { IfOk result (λ link. HandsOutWire (view self.old) address.now (Self.Wire.state link) (view self.new)) }
        ensures unused { IfOk result (λ link. IsUnused (Self.Wire.state link)) }
        ensures failed { OnErr result (view self.new ≡ with_host_fault (view self.old)) };

    /// Takes a link back and closes it. It takes no memory.
    fn wire_back(&mut self, link: Self::Wire)
        ensures { TakesBackWire (view self.old) (Self.Wire.state link) (view self.new) };

    /// Hands out a worker's door at an address, workers counted from 1. Worker 1 listens there, and the others share that listener.
    /// `Failed` counts.
    fn door(&mut self, address: &str, worker: u32) -> Result<Self::Gate, Failed>
        requires { (view self.old).counts.host < 2 ^ 64 - 1 }
        ensures handed { IfOk result (λ door. HandsOutDoor (view self.old) address.now (seen_door Self.Gate.L.state (Self.Gate.state door)) (view self.new)) }
        ensures unused { IfOk result (λ door. IsNewDoor (seen_door Self.Gate.L.state (Self.Gate.state door))) }
        ensures failed { OnErr result (view self.new ≡ with_host_fault (view self.old)) };

    /// Takes a door back, and counts it where accepting has failed. It takes no memory.
    fn door_back(&mut self, door: Self::Gate)
        requires { (view self.old).counts.doors < 2 ^ 64 - 1 }
        ensures { TakesBackDoor (view self.old) (seen_door Self.Gate.L.state (Self.Gate.state door)) (view self.new) };

    /// Hands out a new bench, which is empty and unarmed. NoMemory changes nothing.
    fn bench(&mut self) -> Result<Self::Rig, NoMemory>
        ensures handed { IfOk result (λ bench. HandsOutBench (view self.old) (view self.new)) }
        ensures fresh { IfOk result (λ bench. IsNewBench (Self.Rig.state bench)) }
        ensures no_memory { OnErr result (view self.new ≡ view self.old) };

    /// Takes a bench back. It takes no memory.
    fn bench_back(&mut self, bench: Self::Rig)
        ensures { TakesBackBench (view self.old) (Self.Rig.state bench) (view self.new) };

    /// Keeps the outcome, in place of the one before. It takes no memory.
    fn outcome_back(&mut self, outcome: Outcome)
        ensures { view self.new ≡ record (view self.old) { kept = Some outcome } };

    /// The outcome that was kept last; None before the first.
    fn outcome(&self) -> Option<&Outcome>
        ensures { option_map (λ outcome. outcome.now) result ≡ (view self.now).kept };

    /// Lends the sink. What is done on it changes nothing else.
    fn out(&mut self) -> &mut Self::Out
        ensures* writes_back { sem 𝓛 (LendsRow Self.row Self.Out.row self.entry result (with_sink self.old)) }
        ensures value { Self.Out.state result.now ≡ (view self.old).sink };

    ghost lends_sink: { (host : Self) (other : Self.Out) → view (with_sink host other) ≡ record (view host) { sink = Self.Out.state other } };
}
