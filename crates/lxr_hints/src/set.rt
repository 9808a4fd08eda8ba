//! Sets of hinters.
ghost use Rattle.std.specs.Prelude.{◌≡◌, ◌≤◌, ◌<◌, ◌++◌, [], IfOk, OnOk, All, length, map, replicate};
ghost use Rattle.lxr_hints.specs.Rules.{MayLeave};
ghost use Rattle.lxr_hints.specs.Sharing.{IsWay, way_deque};
ghost use Rattle.lxr_hints.specs.Joined.{AreJoined, others_of, own_deque, pushes_of};

use crate::hinter::{HINTS, Hinter};
use crate::rule::{AnyPlace, HintRule};
use crate::shared::{Deque, Shared, Way};
use std::alloc::{AllocError, Global};

/// A hinter for each of so many workers, with empty deques, and ways to each other one. It takes the memory for all of their pushes.
pub fn hinters(alloc: Global, workers: u8) -> Result<Vec<Hinter>, AllocError>
    requires { (1 ≤ workers) × (workers ≤ 8) }
    ensures fresh { IfOk result (λ set. map pushes_of set.items ≡ replicate workers 0) }
    ensures joined { IfOk result (λ set. AreJoined set.items) }
{
    hinters_under::<AnyPlace>(alloc, workers)
}

/// The same, under a rule.
pub fn hinters_under<H: HintRule>(
    alloc: Global,
    workers: u8,
) -> Result<Vec<Hinter<Shared<H>>>, AllocError>
    requires workers { (1 ≤ workers) × (workers ≤ 8) }
    requires empty { H.holds [] }
    requires leaves { MayLeave H.holds H.taken }
    ensures fresh { IfOk result (λ set. map pushes_of set.items ≡ replicate workers 0) }
    ensures joined { IfOk result (λ set. AreJoined set.items) }
{
    let count = usize::from(workers);
    let mut set = Vec::with_capacity(alloc, count)?;
    for _ in 0..count {
        let deques = Shared {
            own: Deque::<H>::fifo_as(alloc, HINTS)?,
            ways: Vec::with_capacity(alloc, count)?,
        };
        set.push_reserved(Hinter { deques, pushes: 0 });
    }
    for number in 0..count {
        let ways = ways_from(alloc, set.as_slice(), number)?;
        let hinter = &mut set[number];
        hinter.deques.ways = ways;
    }
    Ok(set)
}

/// The ways from the hinter of this number to each other one, those that come next first.
fn ways_from<H: HintRule>(
    alloc: Global,
    set: &[Hinter<Shared<H>>],
    number: usize,
) -> Result<Vec<Way<H>>, AllocError>
    requires { number < length set.now }
    ensures ways { IfOk result (λ ways. All IsWay ways.items) }
    ensures others { IfOk result (λ ways. map way_deque ways.items ≡ others_of number (map own_deque set.now)) }
{
    let mut ways = Vec::with_capacity(alloc, set.len())?;
    add_ways(&mut ways, &set[number + 1..])?;
    add_ways(&mut ways, &set[..number])?;
    Ok(ways)
}

/// Adds a way to each of these hinters.
fn add_ways<H: HintRule>(
    ways: &mut Vec<Way<H>>,
    others: &[Hinter<Shared<H>>],
) -> Result<(), AllocError>
    requires { All IsWay ways.old.items }
    ensures ways { OnOk result (All IsWay ways.new.items) }
    ensures others { OnOk result (map way_deque ways.new.items ≡ map way_deque ways.old.items ++ map own_deque others.now) }
{
    for other in others {
        ways.push(Way::to(&other.deques.own)?)?;
    }
    Ok(())
}
