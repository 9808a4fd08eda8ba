//! An array as its object has it, and which of its elements there are.
ghost use Rattle.std.specs.Prelude.{◌≡◌, ℕ, ◌+◌, ◌/◌, ◌%◌, ◌<◌, ◌≤◌, IfOk, IfSome, List, Some, option_map};
ghost use Rattle.lxr_direct.specs.Known.{IsKnown};
ghost use Rattle.lxr_large_model.specs.History.{LargeItem, large_state};
ghost use Rattle.lxr_heap.specs.Holding.{IsHeapOf};
ghost use Rattle.lxr_c_arrays.specs.Sides as sides;
ghost use Rattle.lxr_c_arrays.specs.Sides.{IsSide};

use lxr_c_base::Code;
use lxr_c_base::requests::index_of;
use lxr_direct::HeldObject;
use lxr_heap::LargeHeap;
use lxr_layout::MOST_FIELDS;

/// How many elements a part has: as many as an object has references at most.
pub const PART: u32 = MOST_FIELDS as u32;

/// How many elements an array has at most: as many parts as an object has references at most.
pub const MOST_ELEMENTS: u32 = PART * PART;

/// Which part of an array an element is in: `index / PART`, which is less than `PART`, in a few instructions.
#[inline(always)]
pub(crate) fn part_number(index: u32) -> u16
    requires { index < MOST_ELEMENTS }
    ensures { result ≡ index / PART }
{
    ((index + index / 1024 + 1) / 1024) as u16
}

/// Which of its part's elements an element is, by the number of the part: `index % PART`.
#[inline(always)]
pub(crate) fn index_in(index: u32, part: u16) -> u16
    requires { part ≡ index / PART }
    ensures { result ≡ index % PART }
{
    (index - PART * u32::from(part)) as u16
}

/// An array by its registers.
#[derive(Clone, Copy, Debug, PartialEq, Eq)]
pub enum Side {
    /// The elements are the references of one object.
    Whole { array: u8 },
    /// They are those of the parts of a root, of which one at a time is at hand in `part`.
    Parts { root: u8, part: u8 },
}

impl Side {
    /// The register of the object of which an element is a reference, once its part is at hand.
    #[inline(always)]
    pub(crate) fn holder(self) -> u8
        ensures { result ≡ sides.holder self }
    {
        match self {
            Side::Whole { array } => array,
            Side::Parts { root: _, part } => part,
        }
    }

    /// Which of its references an element is.
    #[inline(always)]
    pub(crate) fn index_at(self, index: u32) -> u16
        ensures { result ≡ sides.index_at self index }
    {
        match self {
            Side::Whole { array: _ } => index_of(index),
            Side::Parts { root: _, part: _ } => (index % PART) as u16,
        }
    }
}

/// The root of an array in parts, as it was looked up, and how many elements the array has by it.
#[derive(Clone, Copy, Debug, PartialEq, Eq)]
pub struct RootObject {
    pub object: HeldObject,
    pub elements: u32,
}

/// The root that `base` holds; none where that is no root.
#[inline(always)]
pub(crate) fn root_in(heap: &LargeHeap, base: u8) -> Option<RootObject>
    ensures told { (h : List LargeItem) → IsHeapOf heap.now h → option_map (λ root. root.elements) result ≡ sides.root_length (large_state h) base }
    ensures known { IfSome result (λ root. IsKnown heap.now.space 1 root.object × (root.object.register ≡ base)) }
    ensures few { IfSome result (λ root. root.elements ≤ MOST_ELEMENTS) }
{
    let Some(object) = heap.look_up(base) else {
        return None;
    };
    if object.base.shape.values == 0 {
        return None;
    }
    let word = heap.get_in(object, 0);
    Some(RootObject {
        object,
        elements: word.min(u64::from(MOST_ELEMENTS)) as u32,
    })
}

/// How many elements the array has whose root `base` holds; none where that is no root.
#[inline(always)]
pub(crate) fn root_length(heap: &LargeHeap, base: u8) -> Option<u32>
    ensures told { (h : List LargeItem) → IsHeapOf heap.now h → result ≡ sides.root_length (large_state h) base }
    ensures few { IfSome result (λ n. n ≤ MOST_ELEMENTS) }
{
    match root_in(heap, base) {
        None => None,
        Some(root) => Some(root.elements),
    }
}

/// How many references the object has that `base` holds; none where it is nil.
#[inline(always)]
pub(crate) fn references_held(heap: &LargeHeap, base: u8) -> Option<u16>
    ensures { (h : List LargeItem) → IsHeapOf heap.now h → result ≡ sides.references_held (large_state h) base }
{
    match heap.shape(base) {
        None => None,
        Some((shape, _)) => Some(shape.refs),
    }
}

/// The elements of an object with so many references and this length as a root: of a root no more than its parts can have.
#[inline(always)]
fn length_by(references: u16, root: Option<u32>) -> u32
    ensures { Some result ≡ sides.length_by (Some references) root }
{
    let references = u32::from(references);
    match root {
        None => references,
        Some(elements) => elements.min(PART * references),
    }
}

/// How many elements the array has that `base` holds; none where it is nil.
#[inline(always)]
pub(crate) fn array_length(heap: &LargeHeap, base: u8) -> Option<u32>
    ensures { (h : List LargeItem) → IsHeapOf heap.now h → result ≡ sides.array_length (large_state h) base }
{
    let Some(references) = references_held(heap, base) else {
        return None;
    };
    Some(length_by(references, root_length(heap, base)))
}

/// A whole array, where it has elements up to an end.
#[inline(always)]
fn whole_side(elements: u32, array: u8, end: u64) -> Result<Side, Code>
    ensures { result ≡ sides.whole_side elements array end }
{
    if end <= u64::from(elements) {
        Ok(Side::Whole { array })
    } else {
        Err(Code::Index)
    }
}

/// A root of parts, where it has elements up to an end, and the library has a register for the part at hand.
#[inline(always)]
fn parts_side(elements: u32, part: Option<u8>, root: u8, end: u64) -> Result<Side, Code>
    ensures { result ≡ sides.parts_side elements part root end }
{
    let Some(part) = part else {
        return Err(Code::Register);
    };
    if end <= u64::from(elements) {
        Ok(Side::Parts { root, part })
    } else {
        Err(Code::Index)
    }
}

/// The array of an object with so many references, of which elements up to an end are meant.
#[inline(always)]
fn range_by(
    references: u16,
    root: Option<u32>,
    part: Option<u8>,
    array: u8,
    end: u64,
) -> Result<Side, Code>
    ensures { result ≡ sides.range_by references root part array end }
{
    let references = u32::from(references);
    match root {
        None => whole_side(references, array, end),
        Some(elements) => parts_side(elements.min(PART * references), part, array, end),
    }
}

/// The array that a register holds, of which so many elements from `first` on are meant.
#[inline(always)]
pub(crate) fn range_of(
    heap: &LargeHeap,
    part: Option<u8>,
    array: u8,
    first: u32,
    count: u32,
) -> Result<Side, Code>
    ensures told { (h : List LargeItem) → IsHeapOf heap.now h → result ≡ sides.range_of (large_state h) part array first count }
    ensures few { IfOk result (λ s. first + count ≤ MOST_ELEMENTS) }
    ensures registers { (n : ℕ) → array < n → IfSome part (λ p. p < n) → IfOk result (IsSide n) }
{
    let Some(references) = references_held(heap, array) else {
        return Err(Code::Nil);
    };
    let end = u64::from(first) + u64::from(count);
    range_by(references, root_length(heap, array), part, array, end)
}
