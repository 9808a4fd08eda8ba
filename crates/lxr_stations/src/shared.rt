//! What the threads of an epoch share.
ghost use Rattle.std.specs.Prelude.{◌≡◌, ◌<◌, Some, length, IfSome};
ghost use Rattle.lxr_stations.specs.Homes.{GoesOnFrom, IsAbsent, IsPassAt};
ghost use Rattle.lxr_stations.specs.Stations.{IsStationOf, Stationed, table_of};

use crate::homes::{Absence, Homecoming, Homes};
use lxr_core::AnyActor;
use lxr_shared::Pass;
use lxr_shared_passes::PassTable;
use std::marker::Model;

/// The table of an epoch, and the homes of its passes. It may be looked at from any thread.
#[derive(Drop)]
pub(crate) struct Shared {
    pub(crate) table: PassTable<AnyActor>,
    pub(crate) homes: Homes,
}

impl Model for Shared {
    ghost use Rattle.std.specs.Prelude.{◌≡◌, length};
    ghost use Rattle.lxr_stations.specs.Stations.{Housed};

    ghost Value = { Housed };

    ghost view = { λ s. record { id = s.table.id; opening = s.table.opening; homes = s.homes.table.shared.table_id } };

    ghost invariant = { λ s. (s.homes.table.shared.key ≡ s.table) × (s.homes.table.shared.table_id.slots ≡ length s.table.opening.actors) };
}

impl Shared {
    /// The table of an epoch with the homes of its passes.
    pub(crate) fn of(table: PassTable<AnyActor>, homes: Homes) -> Shared
        requires told { homes.table.shared.key ≡ table }
        requires many { homes.table.shared.table_id.slots ≡ length table.opening.actors }
        ensures { result ≡ record { id = table.id; opening = table.opening; homes = homes.table.shared.table_id } }
    {
        Shared { table, homes }
    }

    /// How many passes the epoch has, one for each actor.
    pub(crate) fn count(&self) -> usize
        ensures { result ≡ length self.now.opening.actors }
    {
        self.homes.count()
    }

    /// The table of the words.
    #[inline(always)]
    pub(crate) fn table(&self) -> &PassTable<AnyActor>
        ensures { result.now ≡ record { id = self.now.id; opening = self.now.opening } }
    {
        &self.table
    }

    /// Takes the pass of a number out of its home, if it is there.
    #[inline(always)]
    pub(crate) fn take(&self, number: usize) -> Option<(Pass, Absence)>
        requires { number < length self.now.opening.actors }
        ensures pass { IfSome result (λ taken. IsPassAt (table_of self.now) number taken.0) }
        ensures absence { IfSome result (λ taken. IsAbsent self.now.homes number taken.0 taken.1) }
    {
        self.homes.take(number)
    }

    /// Takes the pass of a number out of its home, if it is there, behind one that was brought home there before: the pass goes on from that one.
    pub(crate) fn take_behind(
        &self,
        number: usize,
        homecoming: Homecoming,
    ) -> Option<(Pass, Absence)>
        requires number { number < length self.now.opening.actors }
        requires homecoming { (s : Stationed) → homecoming ≡ Some s → IsStationOf self.now number s }
        ensures pass { IfSome result (λ taken. IsPassAt (table_of self.now) number taken.0) }
        ensures absence { IfSome result (λ taken. IsAbsent self.now.homes number taken.0 taken.1) }
        ensures goes_on { IfSome result (λ taken. (s : Stationed) → homecoming ≡ Some s → GoesOnFrom s.pass taken.0) }
    {
        self.homes.take_behind(number, homecoming)
    }

    /// Brings a pass back to the home that it is away from.
    #[inline(always)]
    pub(crate) fn bring(&self, pass: Pass, absence: Absence) -> Homecoming
        requires pass { IsPassAt (table_of self.now) absence.number pass }
        requires absence { IsAbsent self.now.homes absence.number pass absence }
        ensures { result ≡ Some (record { pass = pass; homes = self.now.homes }) }
    {
        self.homes.bring(pass, absence)
    }

    /// The table alone. The homes go, with what is in them.
    pub(crate) fn into_table(self) -> PassTable<AnyActor>
        ensures { result ≡ table_of self }
    {
        let Shared { table, homes: _ } = self;
        table
    }
}
