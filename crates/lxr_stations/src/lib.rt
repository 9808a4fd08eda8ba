//! An epoch whose passes stay at homes, and go out with the threads of a host as stations.
//!
//! A `Live` epoch has a home for each pass. A thread takes a pass out of its home as a `Station`, orders operations or helps, and brings it home again,
//! which a `Homecoming` tells. Nobody waits for anybody, and a station that is dropped comes home by itself. Once a pause is wanted and each pass is at home
//! or is handed in, its owner closes the epoch.
//!
//! The scheme is that of LXR (Zhao, Blackburn and McKinley, 2022).
#![tactic(auto)]

mod homes;
mod live;
mod share;
mod shared;
mod station;
mod wanted;

pub use homes::Homecoming;
pub use live::{Live, NotClosed, Unclosed};
pub use share::NoShare;
pub use station::{Answer, Arrival, NotOut, Station};
