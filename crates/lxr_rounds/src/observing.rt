//! What is told of rounds, and the observer that does nothing.
ghost use Rattle.std.specs.Prelude.{◌≡◌, ℕ, ◌+◌, Bool, IfErr, IsTrue, List, OnOk, false};
ghost use Rattle.lxr_core.specs.declared.actors.AnyActor.{AnyActor as Actor};
ghost use Rattle.lxr_graph.specs.declared.report.Kind.{Kind as KindOf};
ghost use Rattle.lxr_graph.specs.History.{HasToldCounts, HasToldNames, PauseReport, report_of};
ghost use Rattle.lxr_model.specs.Reports.{is_draining};
ghost use Rattle.lxr_rounds.specs.Observing.{IsNextReport};

use lxr_core::AnyActor;
use lxr_graph::{Kind, Report};
use std::convert::Infallible;

/// An observer is told what rounds do, and may tell it on to an output, which it is lent for each report.
pub trait Observer<Output> {
    /// Why it can't go on.
    type Error;

    /// Whether it wants the counts of a pause of this kind listed in the report: of a plain one it wants none, and what it wants stays.
    ghost wants: { Self → KindOf → Bool };

    /// Whether it reads the names of reports.
    ghost reads_names: { Self → Bool };

    /// It has room for the next report where so many pauses were made.
    ghost has_room: { Self → ℕ → Type 0 };

    /// What it does as it is told of the actors of which `new`s are about to be answered.
    ghost began: { Self → List Actor → Self → Type 0 };

    /// What it does as it is told of these actors behind that, of which so many are mutators.
    ghost served: { Self → ℕ → List Actor → Self → Type 0 };

    /// What it and its output become as it is told of a report.
    ghost told: { Self → Output → PauseReport → Self → Output → Type 0 };

    /// Why it has failed as it was told of a report, and what its output has become.
    ghost failed: { Self → Output → PauseReport → Self.Error → Output → Type 0 };

    /// Whether it wants the counts of a pause of this kind listed.
    fn wants_counts(&self, kind: Kind) -> bool
        ensures wants { result ≡ wants self.now kind }
        ensures drains { IsTrue result → IsTrue (is_draining kind) };

    /// Whether it reads the names of reports: they are listed then.
    fn reads_names(&self) -> bool
        ensures { result ≡ reads_names self.now };

    /// Called before the `new`s that wait are served or refused.
    fn before_serving(&mut self, actors: &[AnyActor])
        ensures began { began self.old actors.now self.new }
        ensures room { (pauses : ℕ) → has_room self.old pauses → has_room self.new pauses }
        ensures wants { (kind : KindOf) → wants self.new kind ≡ wants self.old kind };

    /// Called after some of them were, in order of threads; of the actors the first `threads` are mutators.
    fn after_serving(&mut self, actors: &[AnyActor], threads: u8)
        ensures served { served self.old threads actors.now self.new }
        ensures room { (pauses : ℕ) → has_room self.old pauses → has_room self.new pauses }
        ensures wants { (kind : KindOf) → wants self.new kind ≡ wants self.old kind };

    /// Called after each pause, with its report; its counts are listed where they are wanted, and its names where it reads them.
    fn after_pause(&mut self, report: &Report, output: &mut Output) -> Result<(), Self::Error>
        requires counts { IsTrue (wants self.old report.now.kind) → HasToldCounts report.now }
        requires names { IsTrue (reads_names self.old) → HasToldNames report.now }
        requires next { (pauses : ℕ) × IsNextReport pauses (report_of report.now) × has_room self.old pauses }
        ensures told { OnOk result (told self.old output.old (report_of report.now) self.new output.new) }
        ensures room { OnOk result (has_room self.new report.now.number) }
        ensures failed { IfErr result (λ why. failed self.old output.old (report_of report.now) why output.new) }
        ensures wants { (kind : KindOf) → wants self.new kind ≡ wants self.old kind };
}

/// The observer that does nothing, and never fails.
#[derive(Clone, Copy, Debug)]
pub struct Nobody;

impl Observer<()> for Nobody {
    type Error = Infallible;

    ghost wants = { λ _ _. false };

    ghost reads_names = { λ _. false };

    ghost has_room = { λ _ _. Unit {0} };

    ghost began = { λ _ _ _. Unit {0} };

    ghost served = { λ _ _ _ _. Unit {0} };

    ghost told = { λ _ _ _ _ _. Unit {0} };

    ghost failed = { λ _ _ _ _ _. ⊥ };

    fn wants_counts(&self, _kind: Kind) -> bool {
        false
    }

    fn reads_names(&self) -> bool {
        false
    }

    fn before_serving(&mut self, _actors: &[AnyActor]) {}

    fn after_serving(&mut self, _actors: &[AnyActor], _threads: u8) {}

    fn after_pause(&mut self, _report: &Report, _output: &mut ()) -> Result<(), Infallible> {
        Ok(())
    }
}
