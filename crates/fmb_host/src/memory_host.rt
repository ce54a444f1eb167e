ghost use Rattle.std.specs.Prelude.{◌≡◌, ◌↔◌, ◌⊎◌, ◌+◌, ◌<◌, ◌-◌, ◌^◌, ℕ, suc, Some, None, Option, List, [], ◌∷◌, ◌++◌, refl, OnOk, OnErr, IfOk, IfSome, IsErr, IsTrue, option_map};
ghost use Rattle.std.specs.Borrow.{Lends, sem};
ghost use Rattle.doors.specs.Doors.{IsUnused};
ghost use Rattle.fault_plan.specs.Plan.{FailsNext, after_call};
ghost use Rattle.fmb_host.specs.Host.{HandsOut, HandsOutBench, HandsOutDoor, HandsOutMedium, HandsOutWire, HostView, IsNewBench, IsNewDoor, TakesBack, TakesBackBench, TakesBackDoor, TakesBackMedium, TakesBackWire, counted_once, with_host_fault};
ghost use Rattle.fmb_host.specs.Memory.{after_return, gate_state, host_view, new_host};
ghost use Rattle.links.specs.Memory.{link_state};
ghost use Rattle.medium.specs.Memory.{bench_state, memory_state};
ghost use Rattle.text_streams.specs.Memory.{source_state};

use crate::host::{Counts, Host};
use crate::queue::Queue;
use avl_values::{Failed, NoMemory};
use doors::{Door, MemoryDoor};
use fault_plan::FaultPlan;
use links::MemoryLink;
use medium::{MemoryBench, MemoryMedium};
use medium_model::Medium;
use std::alloc::Global;
use std::marker::Model;
use text_streams::{MemorySink, MemorySource, Source};
use trial_model::Outcome;

/// A host in memory. It hands out the texts, media, links and doors that were added, each kind in that order and whatever the name,
/// and new benches. Its opens, dials and doors, numbered together, fail at chosen calls, and where none of the kind is left.
#[derive(Drop)]
pub struct MemoryHost {
    alloc: Global,
    counts: Counts,
    kept: Option<Outcome>,
    sink: MemorySink,
    texts: Queue<MemorySource>,
    media: Queue<MemoryMedium>,
    wires: Queue<MemoryLink>,
    gates: Queue<MemoryDoor>,
    benches: Queue<MemoryBench>,
    plan: FaultPlan,
}

impl Model for MemoryHost {
    ghost use Rattle.fmb_host.specs.Memory.{AreFresh, MemoryHostView};

    ghost Value = { MemoryHostView };

    ghost view = { λ h. record {
      counts = h.counts;
      kept = h.kept;
      sink = h.sink;
      texts = h.texts;
      media = h.media;
      wires = h.wires;
      gates = h.gates;
      benches = h.benches;
      plan = h.plan;
    } };

    ghost invariant = { λ h. AreFresh (record {
      counts = h.counts;
      kept = h.kept;
      sink = h.sink;
      texts = h.texts;
      media = h.media;
      wires = h.wires;
      gates = h.gates;
      benches = h.benches;
      plan = h.plan;
    }) };
}

impl MemoryHost {
    /// A host of this sink, whose opens, dials and doors fail at the calls whose numbers, from 0, are in `failing`.
    pub fn new(alloc: Global, sink: MemorySink, failing: &[u64]) -> Result<MemoryHost, NoMemory>
        ensures { IfOk result (λ host. host ≡ new_host sink failing.now) }
    {
        Ok(MemoryHost {
            alloc,
            counts: Counts {
                host: 0,
                texts: 0,
                media: 0,
                doors: 0,
            },
            kept: None,
            sink,
            texts: Queue::new(alloc),
            media: Queue::new(alloc),
            wires: Queue::new(alloc),
            gates: Queue::new(alloc),
            benches: Queue::new(alloc),
            plan: FaultPlan::new(alloc, failing)?,
        })
    }

    /// Queues a text that has not failed yet after those that are handed out before. It takes the memory for its coming back, too.
    /// NoMemory changes nothing.
    pub fn add_text(&mut self, text: MemorySource) -> Result<(), NoMemory>
        requires { text.faults ≡ 0 }
        ensures ok { OnOk result (self.new ≡ record self.old { texts = record self.old.texts { coming = self.old.texts.coming ++ text ∷ [] } }) }
        ensures err { OnErr result (self.new ≡ self.old) }
    {
        self.texts.add(text)
    }

    /// The same of a medium.
    pub fn add_medium(&mut self, medium: MemoryMedium) -> Result<(), NoMemory>
        requires { medium.faults ≡ 0 }
        ensures ok { OnOk result (self.new ≡ record self.old { media = record self.old.media { coming = self.old.media.coming ++ medium ∷ [] } }) }
        ensures err { OnErr result (self.new ≡ self.old) }
    {
        self.media.add(medium)
    }

    /// The same of a link, which was not used yet.
    pub fn add_link(&mut self, link: MemoryLink) -> Result<(), NoMemory>
        requires { IsUnused (link_state link) }
        ensures ok { OnOk result (self.new ≡ record self.old { wires = record self.old.wires { coming = self.old.wires.coming ++ link ∷ [] } }) }
        ensures err { OnErr result (self.new ≡ self.old) }
    {
        self.wires.add(link)
    }

    /// The same of a door, which was not used yet.
    pub fn add_door(&mut self, door: MemoryDoor) -> Result<(), NoMemory>
        requires { IsNewDoor (gate_state door) }
        ensures ok { OnOk result (self.new ≡ record self.old { gates = record self.old.gates { coming = self.old.gates.coming ++ door ∷ [] } }) }
        ensures err { OnErr result (self.new ≡ self.old) }
    {
        self.gates.add(door)
    }

    /// The sink.
    pub fn sink(&self) -> &MemorySink
        ensures { result.now ≡ self.now.sink }
    {
        &self.sink
    }

    /// The texts that came back, in that order, as long as each was one that the host had handed out.
    pub fn texts_back(&self) -> &[MemorySource]
        ensures { IfSome self.now.texts.back (λ texts. result.now ≡ texts) }
    {
        self.texts.back()
    }

    /// The same of media.
    pub fn media_back(&self) -> &[MemoryMedium]
        ensures { IfSome self.now.media.back (λ media. result.now ≡ media) }
    {
        self.media.back()
    }

    /// The same of links.
    pub fn links_back(&self) -> &[MemoryLink]
        ensures { IfSome self.now.wires.back (λ links. result.now ≡ links) }
    {
        self.wires.back()
    }

    /// The same of doors.
    pub fn doors_back(&self) -> &[MemoryDoor]
        ensures { IfSome self.now.gates.back (λ doors. result.now ≡ doors) }
    {
        self.gates.back()
    }

    /// The same of benches.
    pub fn benches_back(&self) -> &[MemoryBench]
        ensures { IfSome self.now.benches.back (λ benches. result.now ≡ benches) }
    {
        self.benches.back()
    }

    // Counts a call, and says whether it was chosen to fail.
    fn is_chosen(&mut self) -> bool
        ensures chosen { IsTrue result ↔ FailsNext self.old.plan }
        ensures counted { self.new ≡ record self.old { plan = after_call self.old.plan } }
    {
        self.plan.next_fails()
    }

    // Counts a text that came back where it has failed.
    fn count_text(&mut self, faults: u64)
        requires { self.old.counts.texts < 2 ^ 64 - 1 }
        ensures { self.new ≡ record self.old { counts = record self.old.counts { texts = counted_once self.old.counts.texts faults } } }
    {
        if faults != 0 {
            self.counts.texts += 1;
        }
    }

    // The same of a medium.
    fn count_medium(&mut self, faults: u64)
        requires { self.old.counts.media < 2 ^ 64 - 1 }
        ensures { self.new ≡ record self.old { counts = record self.old.counts { media = counted_once self.old.counts.media faults } } }
    {
        if faults != 0 {
            self.counts.media += 1;
        }
    }

    // The same of a door.
    fn count_door(&mut self, faults: u64)
        requires { self.old.counts.doors < 2 ^ 64 - 1 }
        ensures { self.new ≡ record self.old { counts = record self.old.counts { doors = counted_once self.old.counts.doors faults } } }
    {
        if faults != 0 {
            self.counts.doors += 1;
        }
    }

    // Counts a call that failed.
    fn fail(&mut self) -> Failed
        requires { self.old.counts.host < 2 ^ 64 - 1 }
        ensures { self.new ≡ record self.old { counts = record self.old.counts { host = self.old.counts.host + 1 } } }
    {
        self.counts.host += 1;
        Failed
    }
}

impl Host for MemoryHost {
    type Text = MemorySource;

    type Out = MemorySink;

    type Rig = MemoryBench;

    type File = MemoryMedium;

    type Wire = MemoryLink;

    type Gate = MemoryDoor;

    ghost view = { λ h. host_view h };

    ghost with_sink = { λ h other. record h { sink = other } };

    fn counts(&self) -> Counts {
        self.counts
    }

    fn open_text(&mut self, name: &str) -> Result<MemorySource, Failed>
        requires { self.old.counts.host < 2 ^ 64 - 1 }
        ensures handed { IfOk result (λ text. HandsOut (host_view self.old) (source_state text) (host_view self.new)) }
        ensures fresh { IfOk result (λ text. text.faults ≡ 0) }
        ensures named { IfOk result (λ text. IfSome None (λ told. told ≡ name.now)) }
        ensures failed { OnErr result (host_view self.new ≡ with_host_fault (host_view self.old)) }

        // it fails exactly at the chosen calls and where no text is left
        ensures fails { IsErr result ↔ (FailsNext self.old.plan ⊎ (self.old.texts.coming ≡ [])) }
        ensures counted { self.new.plan ≡ after_call self.old.plan }
        ensures lent { OnOk result (self.new.texts.lent ≡ self.old.texts.lent + 1) }
    {
        if self.is_chosen() {
            return Err(self.fail());
        }
        match self.texts.take() {
            Some(text) => Ok(text),
            None => Err(self.fail()),
        }
    }

    fn text_back(&mut self, text: MemorySource)
        requires { self.old.counts.texts < 2 ^ 64 - 1 }
        ensures taken { TakesBack (host_view self.old) (source_state text) (host_view self.new) }

        // it keeps a text that it has handed out, where it has kept those before
        ensures kept { self.new.texts ≡ after_return text self.old.texts }
    {
        self.count_text(text.faults());
        self.texts.give_back(text);
    }

    fn open_medium(&mut self, name: &str) -> Result<MemoryMedium, Failed>
        requires { self.old.counts.host < 2 ^ 64 - 1 }
        ensures handed { IfOk result (λ medium. HandsOutMedium (host_view self.old) name.now (memory_state medium) (host_view self.new)) }
        ensures fresh { IfOk result (λ medium. medium.faults ≡ 0) }
        ensures failed { OnErr result (host_view self.new ≡ with_host_fault (host_view self.old)) }

        // it fails exactly at the chosen calls and where no medium is left
        ensures fails { IsErr result ↔ (FailsNext self.old.plan ⊎ (self.old.media.coming ≡ [])) }
        ensures counted { self.new.plan ≡ after_call self.old.plan }
    {
        if self.is_chosen() {
            return Err(self.fail());
        }
        match self.media.take() {
            Some(medium) => Ok(medium),
            None => Err(self.fail()),
        }
    }

    fn medium_back(&mut self, medium: MemoryMedium)
        requires { self.old.counts.media < 2 ^ 64 - 1 }
        ensures taken { TakesBackMedium (host_view self.old) (memory_state medium) (host_view self.new) }
        ensures kept { self.new.media ≡ after_return medium self.old.media }
    {
        self.count_medium(medium.faults());
        self.media.give_back(medium);
    }

    fn dial(&mut self, address: &str) -> Result<MemoryLink, Failed>
        requires { self.old.counts.host < 2 ^ 64 - 1 }
        ensures handed { IfOk result (λ link. HandsOutWire (host_view self.old) address.now (link_state link) (host_view self.new)) }
        ensures unused { IfOk result (λ link. IsUnused (link_state link)) }
        ensures failed { OnErr result (host_view self.new ≡ with_host_fault (host_view self.old)) }

        // it fails exactly at the chosen calls and where no link is left
        ensures fails { IsErr result ↔ (FailsNext self.old.plan ⊎ (self.old.wires.coming ≡ [])) }
        ensures counted { self.new.plan ≡ after_call self.old.plan }
    {
        if self.is_chosen() {
            return Err(self.fail());
        }
        match self.wires.take() {
            Some(link) => Ok(link),
            None => Err(self.fail()),
        }
    }

    fn wire_back(&mut self, link: MemoryLink)
        ensures taken { TakesBackWire (host_view self.old) (link_state link) (host_view self.new) }
        ensures kept { self.new.wires ≡ after_return link self.old.wires }
    {
        self.wires.give_back(link);
    }

    fn door(&mut self, address: &str, worker: u32) -> Result<MemoryDoor, Failed>
        requires { self.old.counts.host < 2 ^ 64 - 1 }
        ensures handed { IfOk result (λ door. HandsOutDoor (host_view self.old) address.now (gate_state door) (host_view self.new)) }
        ensures unused { IfOk result (λ door. IsNewDoor (gate_state door)) }
        ensures failed { OnErr result (host_view self.new ≡ with_host_fault (host_view self.old)) }

        // it fails exactly at the chosen calls and where no door is left
        ensures fails { IsErr result ↔ (FailsNext self.old.plan ⊎ (self.old.gates.coming ≡ [])) }
        ensures counted { self.new.plan ≡ after_call self.old.plan }
    {
        if self.is_chosen() {
            return Err(self.fail());
        }
        match self.gates.take() {
            Some(door) => Ok(door),
            None => Err(self.fail()),
        }
    }

    fn door_back(&mut self, door: MemoryDoor)
        requires { self.old.counts.doors < 2 ^ 64 - 1 }
        ensures taken { TakesBackDoor (host_view self.old) (gate_state door) (host_view self.new) }
        ensures kept { self.new.gates ≡ after_return door self.old.gates }
    {
        self.count_door(door.faults());
        self.gates.give_back(door);
    }

    fn bench(&mut self) -> Result<MemoryBench, NoMemory> {
        let bench = MemoryBench::new(self.alloc)?;
        self.benches.lend()?;
        Ok(bench)
    }

    fn bench_back(&mut self, bench: MemoryBench)
        ensures taken { TakesBackBench (host_view self.old) (bench_state bench) (host_view self.new) }
        ensures kept { self.new.benches ≡ after_return bench self.old.benches }
    {
        self.benches.give_back(bench);
    }

    fn outcome_back(&mut self, outcome: Outcome) {
        self.kept = Some(outcome);
    }

    fn outcome(&self) -> Option<&Outcome> {
        self.kept.as_ref()
    }

    fn out(&mut self) -> &mut MemorySink {
        &mut self.sink
    }

    ghost lends_sink = { λ host other. refl };
}
