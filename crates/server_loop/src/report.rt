ghost use Rattle.std.specs.Prelude.{◌≡◌, ◌<◌, ◌↔◌, [], Some, length, slice_get, IsTrue};

use medium_model::Medium;
use session_core::Served;
use shelf::Shelf;
use std::marker::Model;

/// Sessions in the order of accepting, seen as a list.
#[derive(Debug, Drop)]
pub struct ServedList {
    items: Vec<Served>,
}

impl Model for ServedList {
    ghost use Rattle.std.specs.Prelude.{List};
    ghost use Rattle.session_core.specs.declared.served.Served.{Served};

    ghost Value = { List Served };

    ghost view = { λ l. l.items.items };
}

impl ServedList {
    pub(crate) fn from_vec(items: Vec<Served>) -> ServedList
        ensures { result ≡ items.items }
    {
        ServedList { items }
    }

    /// How many sessions are in it.
    pub fn len(&self) -> usize
        ensures { result ≡ length self.now }
    {
        self.items.len()
    }

    /// Whether no session is in it.
    pub fn is_empty(&self) -> bool
        ensures { IsTrue result ↔ (self.now ≡ []) }
    {
        self.items.is_empty()
    }

    /// The session at a place, counted from 0.
    pub fn at(&self, i: usize) -> &Served
        requires { i < length self.now }
        ensures { slice_get self.now i ≡ Some result.now }
    {
        &self.items[i]
    }
}

/// What a worker reports.
#[derive(Debug, Drop)]
pub struct WorkerReport {
    /// Its sessions, in the order of accepting.
    pub served: ServedList,
    /// Whether it stopped before its last session, since accepting failed.
    pub door_failed: bool,
}

/// Reports in the order of the workers, seen as a list.
#[derive(Debug, Drop)]
pub struct WorkerList {
    items: Vec<WorkerReport>,
}

impl Model for WorkerList {
    ghost use Rattle.std.specs.Prelude.{List};
    ghost use Rattle.server_loop.specs.declared.report.WorkerReport.{WorkerReport};

    ghost Value = { List WorkerReport };

    ghost view = { λ l. l.items.items };
}

impl WorkerList {
    pub(crate) fn from_vec(items: Vec<WorkerReport>) -> WorkerList
        ensures { result ≡ items.items }
    {
        WorkerList { items }
    }

    /// How many reports are in it.
    pub fn len(&self) -> usize
        ensures { result ≡ length self.now }
    {
        self.items.len()
    }

    /// Whether no report is in it.
    pub fn is_empty(&self) -> bool
        ensures { IsTrue result ↔ (self.now ≡ []) }
    {
        self.items.is_empty()
    }

    /// The report at a place, counted from 0.
    pub fn at(&self, i: usize) -> &WorkerReport
        requires { i < length self.now }
        ensures { slice_get self.now i ≡ Some result.now }
    {
        &self.items[i]
    }
}

/// What a server hands back when all its workers are done.
#[derive(Drop)]
pub struct ServeReport<D, M: Medium> {
    /// The doors, in their order.
    pub doors: Vec<D>,
    /// The archive.
    pub shelf: Shelf<M>,
    /// The workers' reports, in the order of their doors.
    pub workers: WorkerList,
}
