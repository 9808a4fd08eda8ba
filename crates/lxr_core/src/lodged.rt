//! A value in memory of its own.
ghost use Rattle.std.specs.Prelude.{◌≡◌, IfOk};
ghost use Rattle.std.specs.Borrow.{Lends, sem};

use std::alloc::{AllocError, Global};
use std::marker::Model;
use std::ops::{Deref, DerefMut};

/// A value in memory of its own, so that it moves by its address alone. Contracts see the value.
#[derive(Drop)]
pub struct Lodged<T> {
    place: Box<T>,
}

impl<T> Model for Lodged<T> {
    ghost use Rattle.std.specs.Prelude.{◌≡◌};

    ghost Value = { T };

    ghost coded = { T.code };

    ghost view = { λ l. l.place.value };
}

impl<T: Drop> Lodged<T> {
    /// Takes the memory for a value, and puts the value there. After a refusal the value is gone.
    pub fn new(alloc: Global, value: T) -> Result<Lodged<T>, AllocError>
        ensures { IfOk result (λ lodged. lodged ≡ value) }
    {
        Ok(Lodged {
            place: Box::new(alloc, value)?,
        })
    }
}

impl<T> Deref for Lodged<T> {
    type Target = T;

    ghost deref_gives = { λ l x. x ≡ l };

    #[inline(always)]
    fn deref(&self) -> &T
        ensures { result.now ≡ self.now }
    {
        &self.place
    }
}

impl<T> DerefMut for Lodged<T> {
    ghost use Rattle.std.specs.Prelude.{◌≡◌};
    ghost use Rattle.std.specs.Borrow.{Lends, sem};
    ghost use Rattle.lxr_core.specs.contracts.lodged.Lodged.{the_row};

    ghost deref_mut_gives = { λ l x. x ≡ l };

    #[inline(always)]
    fn deref_mut(&mut self) -> &mut T
        ensures* writes_back { sem 𝓛 (Lends (the_row T.row) T.row self.entry result (λ w. w)) }
        ensures value { result.now ≡ self.old }
    {
        &mut self.place
    }
}
