//! An epoch in two parts: the table, which threads share, and what else there is, which one of them keeps.
ghost use Rattle.std.specs.Prelude.{◌≡◌, ◌≤◌, length};
ghost use Rattle.lxr_image.specs.Settled.{KnowsWords};
ghost use Rattle.lxr_shared.specs.Sharing.{sharing};

use crate::epoch::Epoch;
use lxr_core::AnyActor;
use lxr_image::Rest;
use lxr_shared_passes::{ActorPass, PassTable};
use std::marker::Model;

/// What an epoch has beside its table. Unlike the table it may not be looked at from several threads.
#[derive(Drop)]
pub struct Aside {
    rest: Rest,
    /// Emptied; closing uses its room.
    spare: Vec<ActorPass<AnyActor>>,
}

impl Model for Aside {
    ghost use Rattle.std.specs.Prelude.{◌≡◌, [], vec_capacity};
    ghost use Rattle.lxr_shared.specs.Sharing.{Kept};

    ghost Value = { Kept };

    ghost view = { λ a. record { rest = a.rest; room = vec_capacity a.spare } };

    ghost invariant = { λ a. a.spare.items ≡ [] };
}

impl Epoch {
    /// Parts the table from what else the epoch has, so that threads can share the one and the other waits aside.
    pub fn into_parts(self) -> (PassTable<AnyActor>, Aside)
        ensures parts { sharing result.0 result.1 ≡ self }
        ensures room { length result.0.opening.actors ≤ result.1.room }
        ensures knows { KnowsWords result.1.rest.settled result.0.opening.words }
    {
        let Epoch {
            passes: table,
            rest,
            spare,
        } = self;
        (table, Aside { rest, spare })
    }

    /// Makes an epoch of its parts again.
    pub fn from_parts(table: PassTable<AnyActor>, aside: Aside) -> Epoch
        requires room { length table.opening.actors ≤ aside.room }
        requires knows { KnowsWords aside.rest.settled table.opening.words }
        ensures { result ≡ sharing table aside }
    {
        let Aside { rest, spare } = aside;
        Epoch {
            passes: table,
            rest,
            spare,
        }
    }
}
