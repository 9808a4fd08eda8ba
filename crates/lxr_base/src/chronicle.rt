//! Lists that only proofs read.
ghost use Rattle.std.specs.Prelude.{◌≡◌, List, [], ◌∷◌, ◌++◌};
ghost use Rattle.std.specs.Borrow.{ftrue};

use crate::Listed;
use std::marker::{Model, PhantomData};

/// The items that came, in order. It keeps none of them: it takes no memory, and its methods do nothing as they run.
#[derive(Drop)]
pub struct Chronicle<T> {
    /// It takes no memory; it makes the type one of items. Open for who makes a chronicle whose items a proof names.
    pub marker: PhantomData<T>,
    pub ghost items: { List T },
}

impl<T> Model for Chronicle<T> {
    ghost also_owns = { λ _. ftrue };
}

// It owns nothing.
unsafe impl<T: Send> Send for Chronicle<T> {}

unsafe impl<T: Sync> Sync for Chronicle<T> {}

impl<T> Chronicle<T> {
    /// No items.
    #[inline(always)]
    pub fn new() -> Chronicle<T>
        ensures { result.items ≡ [] }
    {
        Chronicle {
            marker: PhantomData,
        }
    }

    /// The items of a list.
    #[inline(always)]
    pub fn of(_list: &Listed<T>) -> Chronicle<T>
        ensures { result.items ≡ _list.now.items }
    {
        Chronicle {
            marker: PhantomData,
        }
    }

    /// The same items.
    #[inline(always)]
    pub fn same(&self) -> Chronicle<T>
        ensures { result.items ≡ self.now.items }
    {
        Chronicle {
            marker: PhantomData,
        }
    }

    /// With one more item at the end.
    #[inline(always)]
    pub fn and(&self, _item: &T) -> Chronicle<T>
        ensures { result.items ≡ self.now.items ++ _item.now ∷ [] }
    {
        Chronicle {
            marker: PhantomData,
        }
    }
    /// With the items of another such list behind them.
    #[inline(always)]
    pub fn and_all(&self, _other: &Chronicle<T>) -> Chronicle<T>
        ensures { result.items ≡ self.now.items ++ _other.now.items }
    {
        Chronicle {
            marker: PhantomData,
        }
    }
}
