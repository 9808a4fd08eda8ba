//! Evacuation: the objects of Chosen blocks are moved away, so that the blocks become whole again.
//!
//! The pause that ends a trace moves what is left in the blocks that were chosen when it began, as in LXR (Zhao, Blackburn and
//! McKinley, 2022). References that lead to it were remembered meanwhile, so no more of the heap is looked at than the start bits
//! of Chosen blocks, the remembered set, and what registers hold.
#![tactic(auto)]

mod chosen;
mod clearing;
mod evacuating;
mod moving;
mod references;
mod registers;

pub use evacuating::{Evacuated, evacuate};
