//! A heap that threads share, and a station, behind a handle that a program in C holds: what each call does at them.
#![tactic(auto)]

mod boxing;
mod crossing;
mod held;
mod holder;
mod owned;
mod passing;
mod settings;
mod sharing;
mod trimming;

pub use boxing::NoBox;
pub use crossing::holders_cross;
pub use holder::Holder;
pub use passing::{NotSent, Told, sent_code};
pub use settings::Wishes;
