//! The `new`s that wait for a pause, served or refused behind it, in order of threads.
//!
//! A thread whose `new` finds no lines waits for a pause. After the pause its object is placed at once, or, where no lines fit it, a
//! collecting pause is asked for; only right behind such a pause a `new` is refused. So no heap is said to be full that a collection
//! could have cleared. Lines and blocks are those of Immix (Blackburn and McKinley, 2008), the scheme is that of LXR (Zhao, Blackburn and
//! McKinley, 2022).
#![tactic(auto)]

mod serving;

pub use serving::serve_waiting;

/// What has come of serving the `new`s that wait.
#[derive(Clone, Copy, Debug, PartialEq, Eq)]
pub enum Served {
    /// Each was served or refused.
    All,
    /// The turn has come to one for which there is no room before a collecting pause; it and the later ones still wait.
    Collect,
}
