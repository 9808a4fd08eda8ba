//! Tests of words, of the object graph, of orders of mutators, and of single units of decrementers and tracers, by values worked out by hand. They
//! stand apart, so that the crates of these are proved once.
#![tactic(auto)]

#[cfg(test)]
mod decrements;
#[cfg(test)]
mod graph;
#[cfg(test)]
mod orders;
#[cfg(test)]
mod remembering;
#[cfg(test)]
mod steps;
#[cfg(test)]
mod traces;
#[cfg(test)]
mod words;
