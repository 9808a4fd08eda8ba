//! Evacuation: blocks that few lines keep from being free are emptied, so that they become whole again.
//!
//! When a trace begins, the blocks are chosen ([`choose_blocks`]), and references that lead into them are remembered from then on. The
//! pause that ends the trace moves their objects away ([`evacuate`]) and gives the blocks the states of their lines ([`release_blocks`]), as in
//! LXR (Zhao, Blackburn and McKinley, 2022).
//!
//! Each call takes the space alone, takes no memory and has no refusal. The work is done in the rooms `lxr_evac_blocks` and
//! `lxr_evac_moving`; crates of this repository stand on these.
#![tactic(auto)]

pub use lxr_evac_blocks::{choose_blocks, release_blocks};
pub use lxr_evac_moving::{Evacuated, evacuate};
