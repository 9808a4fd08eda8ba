//! Arrays of references of up to 1,046,529 elements, on the heap for one thread behind its handle: made of objects, in one call, with an
//! element two loads away.
//!
//! An array of up to 1,023 elements is an object whose references they are. A longer one is a root, which has a data word, the length, and a
//! reference to each part: objects of 1,023 elements, the last of what is left. What a call holds on the way stands in two registers of the
//! library's own, which it leaves nil.
#![tactic(auto)]

mod checking;
mod copying;
mod elements;
mod filling;
mod laws;
mod making;
mod reaching;
mod registers;
mod side;
mod steps;

pub use copying::copy;
pub use elements::{length, load, store};
pub use filling::fill;
pub use laws::{
    arrays_keep_nil, arrays_keep_registers, copies_enter_parts, copies_reach_parts,
    copies_replace_elements, fills_reach_parts, fills_replace_elements, length_counts_elements,
    loads_give_elements, new_elements_are_nil, new_keeps_reached, new_roots_have_nils,
    own_stay_nil, stores_reach_parts, stores_replace_elements, whole_calls_do_all,
};
pub use making::new;
