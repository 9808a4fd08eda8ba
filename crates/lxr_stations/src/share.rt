//! One more share of an epoch, where their count has room for one.
ghost use Rattle.std.specs.Prelude.{◌≡◌, IfOk};
ghost use Rattle.std.specs.Arc.{arc_value};

use crate::shared::Shared;
use std::alloc::{AllocError, Global};
use std::sync::Arc;

/// A share of an epoch was asked for and refused. `another_share` alone makes one of these, so whoever answers with one has it from there. That
/// it asks first is read there: no clause says when a share is refused.
#[derive(Clone, Copy, Debug, PartialEq, Eq)]
pub struct NoShare {
    refused: AllocError,
}

/// One more share of what threads share.
pub(crate) fn another_share(shared: &Arc<Shared, Global>) -> Result<Arc<Shared, Global>, NoShare>
    ensures { IfOk result (λ share. arc_value share ≡ arc_value shared.now) }
{
    match Arc::try_clone(shared) {
        Ok(share) => Ok(share),
        Err(refused) => Err(NoShare { refused }),
    }
}
