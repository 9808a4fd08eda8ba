//! The printed texts: the replies of a thread, the report of a pause, the summary of a run. Each is defined byte for
//! byte in `specs/`, and written to a sink in large pieces. After an error a prefix of the text is written.
//!
//! A [`Page`] holds such a piece while it grows; other crates print their texts through it as well.
#![tactic(auto)]

mod laws;
mod orders;
mod pages;
mod pauses;
mod replies;
mod summary;

pub use laws::{text_grows_by_calls, text_is_of_operations};
pub use orders::print_order;
pub use pages::{LINE, PAGE, Page};
pub use pauses::{has_counts, print_pause};
pub use replies::{print_replies, push_answer, push_thread, push_word};
pub use summary::{Sums, print_summary};
