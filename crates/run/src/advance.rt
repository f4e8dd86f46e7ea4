// How far a run has come, record by record.
ghost use Rattle.std.specs.Prelude.{◌≡◌, ◌<◌};
ghost use Rattle.step.specs.Outcome.{outcome_of};
ghost use Rattle.step.specs.Step.{step};
ghost use Rattle.run.specs.Run.{RECORDS, beginning, after, summary};

use crate::counts::{entries, live_objects, messages};
use crate::{Progress, Summary};
use step::{Deed, Event};
use table::Table;
use terms::Refusal;

impl Progress {
    // The most records that a run takes.
    pub const RECORDS: u32 = 4096;

    // Nothing has happened yet.
    pub fn beginning() -> Progress
        ensures { result ≡ beginning }
    {
        Progress {
            table: Table::fresh(),
            records: 0,
            sent: 0,
            saved: 0,
        }
    }

    // One record more: its event is tried on the table, and what it sent and saved is counted.
    pub(crate) fn take(&mut self, e: Event) -> Result<Deed, Refusal>
        requires { (self.old.records < RECORDS) × (self.old.sent < RECORDS) × (self.old.saved < RECORDS) }
        ensures deed { outcome_of result self.new.table ≡ step self.old.table e }
        ensures after { self.new ≡ after self.old (step self.old.table e) }
    {
        let outcome = step::step(&mut self.table, e);
        self.records += 1;
        if let Ok(deed) = outcome {
            self.sent += deed.decrements_sent();
            self.saved += deed.decrements_saved();
        }
        outcome
    }

    // What the last line tells.
    #[tactic(auto, unfolding(crate::specs::Run::summary))]
    pub fn summary(&self) -> Summary
        ensures { result ≡ summary self.now }
    {
        let table = &self.table;
        Summary {
            events: table.count,
            live: live_objects(&table.heap),
            entries: entries(table),
            messages: messages(table),
            sent: self.sent,
            saved: self.saved,
        }
    }
}
