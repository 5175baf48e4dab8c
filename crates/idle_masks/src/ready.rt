// What clients are told, and the memory for it.
ghost use Rattle.std.specs.Prelude.{◌≡◌, ℕ, ◌≤◌, List, [], length, vec_capacity, IfOk};
ghost use Rattle.idle_masks.specs.Watched.{IsRising, AreRising, reports_of, after_reports};

use crate::ClientId;
use crate::subsystem::Subsystems;
use crate::watch::Watched;
use std::alloc::{AllocError, Global};
use std::marker::Model;

/// What an answer to `idle` tells one client.
#[derive(Clone, Copy, Debug, PartialEq, Eq)]
pub struct Report {
    pub client: ClientId,
    /// The subsystems that changed, at least one.
    pub changed: Subsystems,
}

/// Reports by rising client number.
#[derive(Debug, Drop)]
pub struct Reports {
    reports: Vec<Report>,
}

impl Model for Reports {
    ghost use Rattle.std.specs.Prelude.{List};
    ghost use Rattle.idle_masks.specs.declared.ready.Report.{Report};

    ghost Value = { List Report };

    ghost view = { λ r. r.reports.items };
}

impl Reports {
    pub fn as_slice(&self) -> &[Report]
        ensures { result.now ≡ self.now }
    {
        self.reports.as_slice()
    }
}

/// Memory taken beforehand for an answer of `Watch::ready_in`: contracts see for how many reports.
#[derive(Debug, Drop)]
pub struct ReadyRoom {
    empty: Vec<Report>,
}

impl Model for ReadyRoom {
    ghost use Rattle.std.specs.Prelude.{◌≡◌, ℕ, [], vec_capacity};

    ghost Value = { ℕ };

    ghost view = { λ r. vec_capacity r.empty };

    ghost invariant = { λ r. r.empty.items ≡ [] };
}

impl ReadyRoom {
    /// Room for so many reports.
    pub fn new(alloc: Global, reports: usize) -> Result<Self, AllocError>
        ensures { IfOk result (λ room. room ≡ reports) }
    {
        Ok(ReadyRoom {
            empty: Vec::with_capacity(alloc, reports)?,
        })
    }
}

// Takes what is due from each client, and gives the reports.
pub(crate) fn take_ready(clients: &mut [Watched], room: ReadyRoom) -> Reports
    requires { length clients.old ≤ room }
    ensures reports { result ≡ reports_of clients.old }
    ensures in_order { IsRising clients.old → AreRising result }
    ensures taken { clients.new ≡ after_reports clients.old }
    ensures rising { IsRising clients.old → IsRising clients.new }
{
    let ReadyRoom { empty: mut reports } = room;
    for watched in clients.iter_mut() {
        if let Some(report) = watched.take_report() {
            reports.push_reserved(report);
        }
    }
    Reports { reports }
}
