//! What a program in C has of a heap that threads share: the heap, or a station with a pass that is away or at home.
ghost use Rattle.std.specs.Prelude.{◌≡◌};
ghost use Rattle.lxr_c_shared.specs.Ending.{homecoming_of};

use lxr_shared_heap::{Heap, Homecoming, Station};
use std::marker::Model;

/// What nobody but this module has: only here a heap or a station is taken out of what a program has. It has no `Drop`.
struct Seal;

/// A heap of a program's. It has no `Drop`: it ends by `Owned::end`.
pub struct SealedHeap {
    pub heap: Heap,
    seal: Seal,
}

impl Model for SealedHeap {
    ghost use Rattle.lxr_shared_heap.specs.Heaps.{Heaped};

    ghost Value = { Heaped };

    ghost view = { λ sealed. sealed.heap };
}

/// A station of a program's whose pass is away. It has no `Drop`: it ends by `Owned::end`.
pub struct SealedStation {
    pub station: Station,
    seal: Seal,
}

impl Model for SealedStation {
    ghost use Rattle.lxr_stations.specs.Stations.{Stationed};

    ghost Value = { Stationed };

    ghost view = { λ sealed. sealed.station };
}

/// A heap, or a station. It has no `Drop`: it ends by `end`.
pub enum Owned {
    /// The heap.
    Shared(SealedHeap),
    /// A station whose pass is at home, with the homecoming of the one that it had last.
    Home(Option<Homecoming>),
    /// A station whose pass is away.
    Away(SealedStation),
}

impl Owned {
    /// A heap.
    pub(crate) fn of_heap(heap: Heap) -> Owned
        ensures { result ≡ Owned.Shared heap }
    {
        Owned::Shared(SealedHeap { heap, seal: Seal })
    }

    /// A station whose pass is away.
    pub(crate) fn of_station(station: Station) -> Owned
        ensures { result ≡ Owned.Away station }
    {
        Owned::Away(SealedStation {
            station,
            seal: Seal,
        })
    }

    /// Ends it: a heap is closed, and a pass that is away comes home. What it answers is the station's last homecoming.
    pub(crate) fn end(self) -> Option<Homecoming>
        ensures { result ≡ homecoming_of self }
    {
        match self {
            Owned::Shared(SealedHeap { heap, seal: Seal }) => {
                drop(heap);
                None
            }
            Owned::Home(homecoming) => homecoming,
            Owned::Away(
                SealedStation {
                    station,
                    seal: Seal,
                },
            ) => Some(station.come_home()),
        }
    }
}
