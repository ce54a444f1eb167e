ghost use Rattle.std.specs.Prelude.{None, refl};
ghost use Rattle.fmb_host.specs.Host.{AreSmall};

use crate::file::FileText;
use crate::output::Output;
use avl_values::{Failed, NoMemory};
use doors::Door;
use fmb_host::{Counts, Host};
use medium::{FileMedium, MemoryBench};
use medium_model::Medium;
use std::io::{ErrorKind, Stderr, Write};
use std::net::{TcpListener, TcpStream};
use std::time::Duration;
use std::{fs, io};
use tcp_edge::{StreamDoor, StreamLink, prepare};
use text_streams::Source;
use trial_model::Outcome;

/// For how many seconds a connection may be silent, before it is given up as one that failed.
const SILENCE_SECONDS: u64 = 60;

/// The host of the program: texts and media are files, links and doors are TCP, benches are in memory, and the sink is standard output.
#[derive(Drop)]
pub struct System<W> {
    rt: HostRuntime,
    out: Output<W>,
    pub counts: Counts,
    kept: Option<Outcome>,
    listener: Option<TcpListener>,
}

impl<W: Write + Drop> System<W> {
    /// A host that has not failed yet, keeps no outcome and listens nowhere.
    pub fn new(rt: HostRuntime, out: Output<W>) -> System<W>
        ensures { AreSmall result.counts }
    {
        System {
            rt,
            out,
            counts: Counts {
                host: 0,
                texts: 0,
                media: 0,
                doors: 0,
            },
            kept: None,
            listener: None,
        }
    }
}

// Listens at an address, and keeps the listener for the doors of the other workers.
fn listen(
    rt: &HostRuntime,
    kept: &mut Option<TcpListener>,
    address: &str,
) -> io::Result<TcpListener> {
    let listener = TcpListener::bind(rt, address)?;
    let shared = listener.try_clone()?;
    *kept = Some(listener);
    Ok(shared)
}

fn share(kept: &Option<TcpListener>) -> io::Result<TcpListener> {
    match kept {
        Some(listener) => listener.try_clone(),
        None => Err(ErrorKind::NotConnected.into()),
    }
}

impl<W: Write + Drop> Host for System<W> {
    type Text = FileText<fs::File>;

    type Out = Output<W>;

    type Rig = MemoryBench;

    type File = FileMedium;

    type Wire = StreamLink<TcpStream>;

    type Gate = StreamDoor<TcpListener, Stderr>;

    ghost view = { λ h. record {
      counts = h.counts;
      kept = h.kept;
      sink = record { written = None; faults = h.out.faults };
      texts = record { coming = None; returns = None; asked = None };
      media = record { coming = None; returns = None; asked = None };
      wires = record { coming = None; returns = None; asked = None };
      gates = record { coming = None; returns = None; asked = None };
      benches = record { coming = None; returns = None; asked = None };
    } };

    ghost with_sink = { λ h other. record h { out = other } };

    fn counts(&self) -> Counts {
        self.counts
    }

    fn open_text(&mut self, name: &str) -> Result<FileText<fs::File>, Failed> {
        match fs::File::open(&self.rt, name) {
            Ok(file) => Ok(FileText::new(file)),
            Err(_) => {
                self.counts.host += 1;
                Err(Failed)
            }
        }
    }

    fn text_back(&mut self, text: FileText<fs::File>) {
        if text.faults() != 0 {
            self.counts.texts += 1;
        }
    }

    fn open_medium(&mut self, name: &str) -> Result<FileMedium, Failed> {
        match FileMedium::open(&self.rt, name) {
            Ok(medium) => Ok(medium),
            Err(_) => {
                self.counts.host += 1;
                Err(Failed)
            }
        }
    }

    fn medium_back(&mut self, medium: FileMedium) {
        if medium.faults() != 0 {
            self.counts.media += 1;
        }
    }

    fn dial(&mut self, address: &str) -> Result<StreamLink<TcpStream>, Failed> {
        match TcpStream::connect(&self.rt, address) {
            Ok(stream) => {
                prepare(&stream, Duration::from_secs(SILENCE_SECONDS));
                Ok(StreamLink::new(stream, None))
            }
            Err(_) => {
                self.counts.host += 1;
                Err(Failed)
            }
        }
    }

    fn wire_back(&mut self, link: StreamLink<TcpStream>) {
        let _ = link;
    }

    fn door(
        &mut self,
        address: &str,
        worker: u32,
    ) -> Result<StreamDoor<TcpListener, Stderr>, Failed> {
        let listener = if worker == 1 {
            listen(&self.rt, &mut self.listener, address)
        } else {
            share(&self.listener)
        };
        match listener {
            Ok(listener) => Ok(StreamDoor::new(
                listener,
                self.rt.stderr(),
                Duration::from_secs(SILENCE_SECONDS),
            )),
            Err(_) => {
                self.counts.host += 1;
                Err(Failed)
            }
        }
    }

    fn door_back(&mut self, door: StreamDoor<TcpListener, Stderr>) {
        if door.faults() != 0 {
            self.counts.doors += 1;
        }
    }

    fn bench(&mut self) -> Result<MemoryBench, NoMemory> {
        MemoryBench::new(self.rt.alloc())
    }

    fn bench_back(&mut self, bench: MemoryBench) {
        let _ = bench;
    }

    fn outcome_back(&mut self, outcome: Outcome) {
        self.kept = Some(outcome);
    }

    fn outcome(&self) -> Option<&Outcome> {
        self.kept.as_ref()
    }

    fn out(&mut self) -> &mut Output<W> {
        &mut self.out
    }

    ghost lends_sink = { λ host other. refl };
}
