//! What has a name, put into the order of reports, in place.
//!
//! A pause finds objects in any order and takes no memory, so the lists of its report are sorted where they stand. Objects are
//! often found in the reverse of the order in which they were made, as along a list that grew at its front. A sort takes longest for
//! such falling runs, so they are turned around first.
ghost use Rattle.std.specs.Prelude.{◌≡◌, ◌*◌, ◌+◌, ◌<◌, ◌≤◌, ◌^◌, length, map};
ghost use Rattle.std.specs.List.Sorted.{IsPermutation};
ghost use Rattle.lxr_layout.specs.declared.Name.{Name};
ghost use Rattle.lxr_graph.specs.Names.{AreInOrder, has, name_order};
ghost use Rattle.lxr_graph.specs.Distinct.{IsDistinct};

use crate::Count;
use lxr_base::Listed;
use lxr_layout::Name;
use std::cmp::Ordering;

/// What is called by a name.
pub trait Named {
    /// What it is called.
    ghost name_of: { Self → Name };

    /// What it is called.
    fn name(&self) -> Name
        ensures { result ≡ name_of self.now };
}

impl Named for Name {
    ghost name_of = { λ n. n };

    fn name(&self) -> Name {
        *self
    }
}

impl Named for Count {
    ghost name_of = { λ entry. entry.name };

    fn name(&self) -> Name {
        self.name
    }
}

/// The thread and the serial of a name as one number.
fn rank(name: Name) -> u64
    ensures number { result ≡ name.serial + 2 ^ 32 * name.thread }
    ensures serial { name.serial < 2 ^ 32 }
{
    let thread = u64::from(name.thread) << 32;
    u64::from(name.serial) | thread
}

/// How two items stand to each other, in one comparison: as their names do.
fn compare<T: Named>(left: &T, right: &T) -> Ordering
    ensures { result ≡ name_order (T.name_of left.now) (T.name_of right.now) }
{
    rank(left.name()).cmp(&rank(right.name()))
}

/// Whether the item at an index belongs behind the last one.
fn is_above_last<T: Named>(items: &[T], at: usize) -> bool {
    match (items.get(at), items.last()) {
        (Some(item), Some(last)) => compare(item, last) == Ordering::Greater,
        _ => false,
    }
}

/// The end of the falling run that begins at an index: each of its items belongs behind the next one.
fn falling_end<T: Named>(items: &[T], from: usize) -> usize
    requires { from < length items.now }
    ensures { (from < result) × (result ≤ length items.now) }
{
    let mut end = from + 1;
    while end < items.len() && compare(&items[end - 1], &items[end]) == Ordering::Greater {
        end += 1;
    }
    end
}

/// Turns each falling run of items around.
fn turn_runs<T: Named>(list: &mut Listed<T>)
    ensures permutation { IsPermutation list.old.items list.new.items }
    ensures room { list.new.room ≡ list.old.room }
{
    let mut from = 0;
    while from < list.len() {
        let end = falling_end(list.as_slice(), from);
        list.reverse_within(from, end);
        from = end;
    }
}

/// How many items before the last one the list is looked at, to see whether it ends in a falling run.
const NEAR_THE_END: usize = 64;

/// Turns all items around where the first belongs behind the last, and else each falling run where the last items seem to fall.
fn turn_upwards<T: Named>(list: &mut Listed<T>)
    ensures permutation { IsPermutation list.old.items list.new.items }
    ensures room { list.new.room ≡ list.old.room }
{
    let count = list.len();
    if is_above_last(list.as_slice(), 0) {
        list.reverse_within(0, count);
    } else if is_above_last(list.as_slice(), count.saturating_sub(NEAR_THE_END)) {
        turn_runs(list);
    }
}

/// Puts items, each of another name, into the order of their names: by thread, and those of one thread by serial. It takes no
/// memory; n items ask for about n times the logarithm of n comparisons, and for about n where they come in order or in falling
/// runs that stand in order.
pub fn sort_by_name<T: Named>(list: &mut Listed<T>)
    requires { IsDistinct (map T.name_of list.old.items) }
    ensures permutation { IsPermutation list.old.items list.new.items }
    ensures order { AreInOrder (map T.name_of list.new.items) }
    ensures room { list.new.room ≡ list.old.room }
{
    turn_upwards(list);
    list.sort_unstable_by(compare::<T>);
}

/// Puts names, each of which is there once, into their order.
pub fn sort_names(names: &mut Listed<Name>)
    requires { IsDistinct names.old.items }
    ensures sorted { AreInOrder names.new.items }
    ensures members { (n : Name) → has names.new.items n ≡ has names.old.items n }
    ensures room { names.new.room ≡ names.old.room }
{
    sort_by_name(names);
}
