//! How far a run of several threads has come.
//!
//! A run goes over epochs. Each ends with a pause, behind which waiting `new`s are served in order of threads; then runs
//! and free blocks are listed anew, and the next epoch begins. Between these steps the history is one so far of the
//! script, the space stands for what it led to, and the actors rest with the replies that it has of their threads. The
//! functions of this crate do nothing: the contract of each is a law.
#![tactic(auto)]

ghost use Rattle.lxr_rounds_invariant.specs.Laws.{EpochsMayOpen, EpochsRun, RunsEnd, RunsGoOn};
ghost use Rattle.lxr_rounds_invariant.specs.Renewing.{RunsAreRenewed};

/// Between epochs the next one may be opened.
pub fn epochs_may_open()
    ensures { EpochsMayOpen }
{}

/// Where an epoch is closed, a pause has a cause, and something was done or waits to be.
pub fn epochs_run()
    ensures { EpochsRun }
{}

/// Once waiting `new`s are served after a pause, the run is between epochs again, with more operations done.
pub fn runs_go_on()
    ensures { RunsGoOn }
{}

/// The pause behind the last end makes the history whole.
pub fn runs_end()
    ensures { RunsEnd }
{}

/// Where names are renewed between two epochs, the run is between epochs again: its history has the renewal, and each thread is
/// asked for what it was asked for and hasn't done.
pub fn runs_are_renewed()
    ensures { RunsAreRenewed }
{}
