//! A closed table and a table, as the fields that they are made of.
ghost use Rattle.std.specs.Prelude.{◌≡◌};
ghost use Rattle.std.specs.Mem.{manually_drop_value};
ghost use Rattle.std.specs.Mem.Slots.{lease_ptr, lease_len, lease_heap};

use atomic_table::{Closed, Shared, Table, TableRule};
use core::slots::{Lease, Slots};
use std::alloc::Allocator;
use std::mem::ManuallyDrop;

/// The fields of a closed table, in the order in which it has them: words and slots, the rights to free the memory of
/// both, and the allocator.
pub(crate) type ClosedFields<S, A> = (Slots<u64>, Slots<S>, Lease<u64, A>, Lease<S, A>, A);

/// The fields of a table, in the order in which it has them: what threads share, the numbers of words and slots, the
/// rights to free the memory of both, and the allocator. A table keeps each right in a struct of that field alone.
pub(crate) type TableFields<S, V, K, P, A> = (
    Shared<S, V, K, P>,
    usize,
    usize,
    (Lease<u64, A>,),
    (Lease<S, A>,),
    A,
);

/// Takes a closed table apart.
pub(crate) fn take_apart<S, A: Allocator>(
    closed: ManuallyDrop<Closed<S, A>>,
) -> ManuallyDrop<ClosedFields<S, A>>
    ensures rows { let fields = manually_drop_value result in let closed = manually_drop_value closed in (fields.0 ≡ closed.words) × (fields.1 ≡ closed.slots) }
    ensures rights { let fields = manually_drop_value result in let closed = manually_drop_value closed in (fields.2 ≡ closed.word_lease) × (fields.3 ≡ closed.slot_lease) × (fields.4 ≡ closed.heap) }
{
    let start = &raw const closed as *const ManuallyDrop<ClosedFields<S, A>>;
    // SAFETY: the closed table is laid out as its fields are, owns what they own, and is never dropped.
    unsafe { start.read() }
}

/// Makes a table of its fields. The condition is what a table knows of them: the numbers are those of the shared words
/// and slots, and each right is to the memory that they lie in, from the table's allocator.
pub(crate) fn put_together<S, V, K, P: TableRule<S, V, K>, A: Allocator>(
    fields: ManuallyDrop<TableFields<S, V, K, P, A>>,
) -> ManuallyDrop<Table<S, V, K, P, A>>
    requires counts { let fields = manually_drop_value fields in (fields.1 ≡ fields.0.table_id.words) × (fields.2 ≡ fields.0.table_id.slots) }
    requires words { let fields = manually_drop_value fields in (lease_ptr fields.3.0 ≡ fields.0.words) × (lease_len fields.3.0 ≡ fields.1) × (lease_heap fields.3.0 ≡ fields.5) }
    requires slots { let fields = manually_drop_value fields in (lease_ptr fields.4.0 ≡ fields.0.slots) × (lease_len fields.4.0 ≡ fields.2) × (lease_heap fields.4.0 ≡ fields.5) }
    ensures { (manually_drop_value result).shared ≡ (manually_drop_value fields).0 }
{
    let start = &raw const fields as *const ManuallyDrop<Table<S, V, K, P, A>>;
    // SAFETY: a table is laid out as its fields are, owns what they own, and the fields are never dropped.
    unsafe { start.read() }
}
