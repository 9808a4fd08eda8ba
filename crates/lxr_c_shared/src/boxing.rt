//! One more box, where the machine has memory for it.
ghost use Rattle.std.specs.Prelude.{◌≡◌, IfErr, IfOk};

use crate::owned::Owned;
use std::alloc::{AllocError, AllocFailed, Global};

/// A box was asked for and refused. `boxed` alone makes one of these, so whoever answers with one has it from there. That it asks first is read
/// there: no clause says when memory is refused.
#[derive(Clone, Copy, Debug, PartialEq, Eq)]
pub struct NoBox {
    refused: AllocError,
}

/// What is in no box, since one was refused.
pub(crate) struct Unboxed {
    pub owned: Owned,
    pub why: NoBox,
}

/// Puts what a program is to have in a box, or gives it back.
pub(crate) fn boxed(alloc: Global, owned: Owned) -> Result<Box<Owned, Global>, Unboxed>
    ensures boxed { IfOk result (λ b. b.value ≡ owned) }
    ensures kept { IfErr result (λ unboxed. unboxed.owned ≡ owned) }
{
    match Box::new(alloc, owned) {
        Ok(made) => Ok(made),
        Err(AllocFailed { value }) => Err(Unboxed {
            owned: value,
            why: NoBox {
                refused: AllocError,
            },
        }),
    }
}
