//! How an object holds its words.
ghost use Rattle.std.specs.Prelude.{◌≡◌, ◌<◌, ◌≤◌, ◌^◌, IfSome, List, Some};
ghost use Rattle.lxr_large_model.specs.declared.TheConstants.{MOST_BODY_BLOCKS};
ghost use Rattle.lxr_large_model.specs.History.{LargeItem, large_state};
ghost use Rattle.lxr_heap.specs.Holding.{IsHeapOf};
ghost use Rattle.lxr_c_words.specs.declared.form.Form.TheVariants as form;
ghost use Rattle.lxr_c_words.specs.Words.{HasBody, form_at, length_in};

use lxr_heap::LargeHeap;
use lxr_layout::WORDS_IN_BLOCK;

/// How an object holds its words, and how many there are.
#[derive(Clone, Copy, Debug, PartialEq, Eq)]
pub enum Form {
    /// They are its data words.
    Data(u32),
    /// They stand in its body, behind the word that says how many there are.
    Body(u32),
}

impl Form {
    /// How many words there are.
    #[inline(always)]
    pub(crate) fn length(self) -> u32
        ensures { result ≡ length_in self }
    {
        match self {
            Form::Data(count) | Form::Body(count) => count,
        }
    }
}

/// How many words the body of what `base` holds has: as many as its first word says, or all others.
#[inline(always)]
fn count_in_body(heap: &LargeHeap, base: u8, blocks: u32) -> u32
    requires blocks { (1 ≤ blocks) × (blocks ≤ MOST_BODY_BLOCKS) }
    requires there { (h : List LargeItem) → IsHeapOf heap.now h → HasBody (large_state h) base blocks }
    ensures counted { (h : List LargeItem) → IsHeapOf heap.now h → Some (form.Body result) ≡ form_at (large_state h) base }
    ensures few { result < 2 ^ 20 }
{
    let mut told = [0];
    heap.read(base, 0, &mut told);
    let others = u64::from(WORDS_IN_BLOCK) * u64::from(blocks) - 1;
    told[0].min(others) as u32
}

/// How what `base` holds has its words; none where it is nil.
#[inline(always)]
pub(crate) fn form_of(heap: &LargeHeap, base: u8) -> Option<Form>
    requires holds { ∥ ((h : List LargeItem) × IsHeapOf heap.now h) ∥₁ }
    ensures form { (h : List LargeItem) → IsHeapOf heap.now h → result ≡ form_at (large_state h) base }
    ensures few { IfSome result (λ f. length_in f < 2 ^ 20) }
{
    let (shape, blocks) = heap.shape(base)?;
    if blocks == 0 {
        return Some(Form::Data(u32::from(shape.values)));
    }
    Some(Form::Body(count_in_body(heap, base, blocks)))
}
