//! The memory of a table that has no slots, while no table stands over it.
ghost use Rattle.std.specs.Prelude.{◌≡◌, [], length, replicate, IfOk};
ghost use Rattle.std.specs.Mem.Slots.{slots_items, slots_ptr, slots_len, lease_ptr, lease_len, lease_heap, IsFull};
ghost use Rattle.atomic_table.specs.Table.{opening};

use crate::closed_fields::{put_together, take_apart};
use crate::closed_rows::share;
use crate::key::KeyFrom;
use crate::reserving::reserve_words;
use atomic_table::{Closed, Seat, Table, TableRule};
use core::slots::{Lease, Slots, release, reserve};
use std::alloc::{AllocError, Allocator};
use std::mem::ManuallyDrop;

/// The most words that a block of memory can have.
const MOST_WORDS: usize = isize::MAX as usize / size_of::<u64>();

/// The words of a table without slots, and the rights to free the memory of its two rows.
pub(crate) struct TableMemory<A: Allocator> {
    pub(crate) words: Slots<u64>,
    slots: Slots<()>,
    word_lease: Lease<u64, A>,
    slot_lease: Lease<(), A>,
    alloc: A,
    ghost no_slots: { slots_len slots ≡ 0 },
    ghost words_leased: { (lease_ptr word_lease ≡ slots_ptr words) × (lease_len word_lease ≡ slots_len words) × (lease_heap word_lease ≡ alloc) },
    ghost slots_leased: { (lease_ptr slot_lease ≡ slots_ptr slots) × (lease_len slot_lease ≡ slots_len slots) × (lease_heap slot_lease ≡ alloc) },
}

impl<A: Allocator> TableMemory<A> {
    /// Memory for so many words, all 0 and none written.
    pub(crate) fn reserve(alloc: A, count: usize) -> Result<TableMemory<A>, AllocError>
        ensures { IfOk result (λ m. slots_items m.words ≡ replicate count 0) }
    {
        if count > MOST_WORDS {
            return Err(AllocError);
        }
        let (words, word_lease) = reserve_words(&alloc, count)?;
        // SAFETY: a row of no places forgets nothing.
        let Ok((slots, slot_lease)) = (unsafe { reserve::<(), A>(&alloc, &[]) }) else {
            release(&alloc, words, word_lease);
            return Err(AllocError);
        };
        Ok(TableMemory {
            words,
            slots,
            word_lease,
            slot_lease,
            alloc,
        })
    }

    /// The memory of a closed table.
    pub(crate) fn of(closed: Closed<(), A>) -> TableMemory<A>
        requires { slots_len closed.slots ≡ 0 }
        ensures { result.words ≡ closed.words }
    {
        // SAFETY: the closed table is read once below, and owned by what is read.
        let closed = unsafe { ManuallyDrop::new_unchecked(closed) };
        let (words, slots, word_lease, slot_lease, alloc) = ManuallyDrop::into_inner(take_apart(
            closed,
        ));
        TableMemory {
            words,
            slots,
            word_lease,
            slot_lease,
            alloc,
        }
    }

    /// Opens a table over the words, where they lie, and gives its first seat. The condition is that each word is written,
    /// and that the rule holds of them. It moves two pointers, whatever the number of words.
    pub(crate) fn open<V, K, P: TableRule<(), V, K>, B, Q: KeyFrom<B, K>>(
        self,
        about: &B,
    ) -> (Table<(), V, K, P, A>, Seat<(), V>)
        requires full { IsFull self.words }
        requires rule { let key = Q.key about.now (slots_items self.words) in P.holds key (opening (slots_items self.words) [] (P.first key)) }
        ensures counts { (result.0.shared.table_id.words ≡ slots_len self.words) × (result.0.shared.table_id.slots ≡ 0) × (result.0.shared.key ≡ Q.key about.now (slots_items self.words)) }
        ensures seat { (result.1.table_id ≡ result.0.shared.table_id) × (result.1.id ≡ 0) × (result.1.me ≡ (P.first (Q.key about.now (slots_items self.words)), [])) }
    {
        let TableMemory {
            words,
            slots,
            word_lease,
            slot_lease,
            alloc,
        } = self;
        let word_count = words.len();
        let slot_count = slots.len();
        // SAFETY: each value that is kept from being dropped is read once below, and owned by what is read.
        let rows = unsafe { ManuallyDrop::new_unchecked((words, slots)) };
        let (shared, seat) = share::<(), V, K, P, B, Q>(about, rows);
        let fields = (
            shared,
            word_count,
            slot_count,
            (word_lease,),
            (slot_lease,),
            alloc,
        );
        let fields = unsafe { ManuallyDrop::new_unchecked(fields) };
        (ManuallyDrop::into_inner(put_together(fields)), seat)
    }
}

impl<A: Allocator> Drop for TableMemory<A> {
    fn drop(self) {
        let TableMemory {
            words,
            slots,
            word_lease,
            slot_lease,
            alloc,
        } = self;
        release(&alloc, words, word_lease);
        release(&alloc, slots, slot_lease);
    }
}
