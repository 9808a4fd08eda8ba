//! The sizes of a run's reports, summed.
ghost use Rattle.std.specs.Prelude.{◌≡◌, ◌+◌, ◌<◌, ◌^◌};
ghost use Rattle.lxr_graph.specs.History.{report_of};
ghost use Rattle.lxr_run_history.specs.Sums.{no_totals, with_report};

use lxr_graph::Report;

/// How many names the lists of all reports of a run have had so far.
#[derive(Clone, Copy, Debug, PartialEq, Eq)]
pub struct Totals {
    pub promoted: u64,
    pub dead: u64,
    pub swept: u64,
    pub stuck: u64,
}

impl Totals {
    /// Those of no report.
    pub fn none() -> Totals
        ensures { result ≡ no_totals }
    {
        Totals {
            promoted: 0,
            dead: 0,
            swept: 0,
            stuck: 0,
        }
    }

    /// Adds a report.
    pub fn add(&mut self, report: &Report)
        requires room { (with_report self.old (report_of report.now)).promoted < 2 ^ 64 }
        requires dead_room { (with_report self.old (report_of report.now)).dead < 2 ^ 64 }
        requires swept_room { (with_report self.old (report_of report.now)).swept < 2 ^ 64 }
        requires stuck_room { (with_report self.old (report_of report.now)).stuck < 2 ^ 64 }
        ensures { self.new ≡ with_report self.old (report_of report.now) }
    {
        self.promoted += report.promoted.len() as u64;
        self.dead += report.dead.len() as u64;
        self.swept += report.swept.len() as u64;
        self.stuck += report.stuck.len() as u64;
    }
}
