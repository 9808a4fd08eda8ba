//! Homes: where the passes of an epoch wait while no thread has them.
//!
//! Each home has a word, which is 1 while its pass is there. Who finds 1 as it writes 0 has the pass, and with it the right to
//! put the pass back and to write 1 again. So a pass is taken by one swap and brought back by one store, and nobody waits.
ghost use Rattle.std.specs.Prelude.{◌≡◌, ◌<◌, ◌≤◌, IfOk, IfSome, Some, [], map, replicate, vec_len, vec_capacity, ◌∷◌};
ghost use Rattle.lxr_core.specs.declared.actors.AnyActor.{AnyActor};
ghost use Rattle.lxr_shared_passes.specs.Passing.{Passing};
ghost use Rattle.lxr_stations.specs.declared.homes.Note.TheVariants as note;
ghost use Rattle.lxr_stations.specs.Homes.{ArePassesFrom, GoesOnFrom, IsAbsent, IsPassAt};
ghost use Rattle.lxr_stations.specs.Stations.{Stationed};

use atomic_table::{Play, Refused, Seat, Table, TableRule};
use lxr_core::AnyActor;
use lxr_shared::Pass;
use lxr_shared_passes::PassTable;
use std::alloc::{AllocError, Global};
use std::marker::Model;

/// The word of a home whose pass is away.
const AWAY: u64 = 0;

/// The word of a home whose pass is there.
const THERE: u64 = 1;

/// What a seat tells of what was done with it, which proofs alone read.
pub(crate) enum Note {
    /// Nothing, at the homes of this epoch.
    Idle(PassTable<AnyActor>),
    /// It took this pass out of its home, and holds the place.
    Took(Pass),
    /// It brought this pass home.
    Brought(Pass),
}

/// What holds of an epoch's homes: one that says that its pass is there has it, one that doesn't is that of a pass which some seat has taken and not
/// brought back, and a pass goes on from each that was brought to its home.
pub(crate) struct Waiting;

impl TableRule<Option<Pass>, Note, PassTable<AnyActor>> for Waiting {
    ghost use Rattle.lxr_stations.specs.Homes.{HaveHomes};
    ghost use Rattle.lxr_stations.specs.declared.homes.Note.TheVariants as note;

    ghost holds = { λ epoch. HaveHomes epoch };

    ghost first = { λ epoch. note.Idle epoch };
}

/// A seat takes the pass that is at home.
struct Takes;

impl Play<Option<Pass>, Note> for Takes {
    ghost use Rattle.std.specs.Prelude.{◌≡◌};
    ghost use Rattle.lxr_stations.specs.Homes.{TakesOut};

    ghost then = { λ st m r n. r ≡ 1 → TakesOut m.0 st.word n };
}

/// A seat puts a pass back, and tells which.
struct Brings;

impl Play<Option<Pass>, Note> for Brings {
    ghost use Rattle.lxr_stations.specs.Homes.{PutsBack};

    ghost then = { λ st m r n. PutsBack m n };
}

/// The homes of all passes of an epoch.
#[derive(Drop)]
pub(crate) struct Homes {
    pub(crate) table: Table<Option<Pass>, Note, PassTable<AnyActor>, Waiting, Global>,
    count: usize,
    ghost sized: { (table.shared.table_id.words ≡ count) × (table.shared.table_id.slots ≡ count) },
}

/// That a pass is away from its home, and the right to bring it back. It has no `Drop`, so that no pass is forgotten.
pub(crate) struct Absence {
    number: usize,
    seat: Seat<Option<Pass>, Note>,
}

impl Absence {
    /// The number of the pass that is away.
    #[inline(always)]
    pub(crate) fn number(&self) -> usize
        ensures { result ≡ self.now.number }
    {
        self.number
    }

    /// Lets go of the right: the homes end with their last share, and no pass comes back to them.
    pub(crate) fn let_go(self) {
        let Absence { number: _, seat: _ } = self;
    }
}

/// That a pass was brought home, and which: its value is the station that came home. Nothing but bringing a pass home makes one. It holds no share of the
/// epoch, and dropping it does nothing.
#[derive(Drop)]
pub struct Homecoming {
    seat: Seat<Option<Pass>, Note>,
}

impl Model for Homecoming {
    ghost use Rattle.std.specs.Prelude.{◌≡◌, Option, [], IsSome};
    ghost use Rattle.lxr_stations.specs.Homes.{brought_in};
    ghost use Rattle.lxr_stations.specs.Stations.{Stationed, homed_in};

    ghost Value = { Option Stationed };

    ghost view = { λ h. homed_in h.seat.table_id h.seat.me.0 };

    ghost invariant = { λ h. (h.seat.me.1 ≡ []) × IsSome (brought_in h.seat.me.0) };
}

impl Homes {
    /// The homes of these passes of an epoch, all there.
    pub(crate) fn new(
        alloc: Global,
        epoch: &PassTable<AnyActor>,
        passes: Vec<Pass>,
    ) -> Result<Homes, AllocError>
        requires { ArePassesFrom epoch.now 0 passes.items }
        ensures { IfOk result (λ homes. (homes.table.shared.key ≡ epoch.now) × (homes.table.shared.table_id.slots ≡ vec_len passes)) }
    {
        let count = passes.len();
        let mut words = Vec::with_capacity(alloc, count)?;
        let mut places = Vec::with_capacity(alloc, count)?;
        settle(passes, &mut words, &mut places);
        match Table::new(alloc, &words, places, epoch) {
            Ok((table, _seat)) => Ok(Homes { table, count }),
            Err(Refused { slots: _ }) => Err(AllocError),
        }
    }

    /// How many there are.
    pub(crate) fn count(&self) -> usize
        ensures { result ≡ self.now.table.shared.table_id.slots }
    {
        self.count
    }

    /// Takes the pass of a number out of its home, if it is there.
    #[inline(always)]
    pub(crate) fn take(&self, number: usize) -> Option<(Pass, Absence)>
        requires { number < self.now.table.shared.table_id.slots }
        ensures pass { IfSome result (λ taken. IsPassAt self.now.table.shared.key number taken.0) }
        ensures absence { IfSome result (λ taken. IsAbsent self.now.table.shared.table_id number taken.0 taken.1) }
    {
        let (found, seat) = self.table.shared.swap_new_seat::<Takes>(number, AWAY);
        if found != THERE {
            return None;
        }
        Some(self.receive(number, seat))
    }

    /// Takes the pass of a number out of its home, if it is there, by the seat that brought one home there before: the pass goes on from that one.
    pub(crate) fn take_behind(
        &self,
        number: usize,
        homecoming: Homecoming,
    ) -> Option<(Pass, Absence)>
        requires number { number < self.now.table.shared.table_id.slots }
        requires homecoming { (s : Stationed) → homecoming ≡ Some s → (s.homes ≡ self.now.table.shared.table_id) × IsPassAt self.now.table.shared.key number s.pass }
        ensures pass { IfSome result (λ taken. IsPassAt self.now.table.shared.key number taken.0) }
        ensures absence { IfSome result (λ taken. IsAbsent self.now.table.shared.table_id number taken.0 taken.1) }
        ensures goes_on { IfSome result (λ taken. (s : Stationed) → homecoming ≡ Some s → GoesOnFrom s.pass taken.0) }
    {
        let Homecoming { mut seat } = homecoming;
        if self.table.shared.swap::<Takes>(&mut seat, number, AWAY) != THERE {
            return None;
        }
        Some(self.receive(number, seat))
    }

    /// The pass that a seat has taken out of its home.
    #[inline(always)]
    fn receive(&self, number: usize, mut seat: Seat<Option<Pass>, Note>) -> (Pass, Absence)
        requires { (number < self.now.table.shared.table_id.slots) × (seat.table_id ≡ self.now.table.shared.table_id) × (p : Passing AnyActor) × (seat.me.1 ≡ (number, Some p) ∷ []) × (seat.me.0 ≡ note.Took p) }
        ensures pass { seat.me.0 ≡ note.Took result.0 }
        ensures absence { IsAbsent self.now.table.shared.table_id number result.0 result.1 }
    {
        let pass = self.table.shared.exchange(&mut seat, number, None).unwrap();
        (pass, Absence { number, seat })
    }

    /// Brings a pass back to the home that it is away from.
    #[inline(always)]
    pub(crate) fn bring(&self, pass: Pass, absence: Absence) -> Homecoming
        requires pass { IsPassAt self.now.table.shared.key absence.number pass }
        requires absence { IsAbsent self.now.table.shared.table_id absence.number pass absence }
        ensures { result ≡ Some (record { pass = pass; homes = self.now.table.shared.table_id }) }
    {
        let Absence { number, mut seat } = absence;
        drop(self.table.shared.exchange(&mut seat, number, Some(pass)));
        self.table.shared.store::<Brings>(&mut seat, number, THERE);
        Homecoming { seat }
    }
}

/// Puts each pass in its place, and notes that it is there.
fn settle(passes: Vec<Pass>, words: &mut Vec<u64>, places: &mut Vec<Option<Pass>>)
    requires words { (words.old.items ≡ []) × (vec_len passes ≤ vec_capacity words.old) }
    requires places { (places.old.items ≡ []) × (vec_len passes ≤ vec_capacity places.old) }
    ensures words { words.new.items ≡ replicate (vec_len passes) 1 }
    ensures places { places.new.items ≡ map Some passes.items }
{
    let mut rest = passes.into_iter();
    while let Some(pass) = rest.next() {
        words.push_reserved(THERE);
        places.push_reserved(Some(pass));
    }
    rest.destroy_empty();
}
