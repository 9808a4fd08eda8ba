//! Two full rows become the words and slots that threads share.
ghost use Rattle.std.specs.Prelude.{◌≡◌, [], length};
ghost use Rattle.std.specs.Mem.{manually_drop_value};
ghost use Rattle.std.specs.Mem.Slots.{slots_items, slots_ptr, IsFull};
ghost use Rattle.atomic_table.specs.Table.{opening};

use crate::key::KeyFrom;
use atomic_table::{Seat, Shared, TableRule};
use core::slots::Slots;
use std::marker::PhantomData;
use std::mem::ManuallyDrop;

/// The rows of a table: its words and its slots.
pub(crate) type Rows<S> = (Slots<u64>, Slots<S>);

/// What threads share of a table that has these rows, and its first seat. The condition is that both rows are full, and
/// that the rule holds of what is in them.
pub(crate) fn share<S, V, K, P: TableRule<S, V, K>, B, Q: KeyFrom<B, K>>(
    about: &B,
    rows: ManuallyDrop<Rows<S>>,
) -> (Shared<S, V, K, P>, Seat<S, V>)
    requires full { let rows = manually_drop_value rows in IsFull rows.0 × IsFull rows.1 }
    requires rule { let rows = manually_drop_value rows in let key = Q.key about.now (slots_items rows.0) in P.holds key (opening (slots_items rows.0) (slots_items rows.1) (P.first key)) }
    ensures counts { let rows = manually_drop_value rows in (result.0.table_id.words ≡ length (slots_items rows.0)) × (result.0.table_id.slots ≡ length (slots_items rows.1)) × (result.1.table_id ≡ result.0.table_id) }
    ensures places { let rows = manually_drop_value rows in (result.0.words ≡ slots_ptr rows.0) × (result.0.slots ≡ slots_ptr rows.1) × (result.0.key ≡ Q.key about.now (slots_items rows.0)) }
    ensures seat { (result.1.id ≡ 0) × (result.1.me ≡ (P.first (Q.key about.now (slots_items (manually_drop_value rows).0)), [])) }
{
    let start = &raw const rows as *const ((*mut u64, usize), (*mut S, usize));
    // SAFETY: a row is a pointer to its places and their number.
    let words = unsafe { (*start).0.0 };
    let slots = unsafe { (*start).1.0 };
    let both = ((words, slots, PhantomData::<()>), (PhantomData::<()>,));
    // SAFETY: what is shared of a table is the pointers of both rows and a marker, and a seat is a marker. The rows are
    // never dropped, so what they own is owned by the shared table alone.
    unsafe { (&raw const both as *const (Shared<S, V, K, P>, Seat<S, V>)).read() }
}
