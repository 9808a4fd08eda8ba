//! What has no export for C: of a heap that threads share, that a station or a homecoming is handed in to a pause, that mutators end, and that
//! stations go to other threads, by their type; of a heap for one thread, that it is renewed where an end of the test's own says so.
#![tactic(auto)]

#[cfg(test)]
mod renewed;
#[cfg(test)]
mod slices;
#[cfg(test)]
mod tests;
