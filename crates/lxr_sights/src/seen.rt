//! The watch that keeps copies of what it sees.
ghost use Rattle.std.specs.Prelude.{◌≡◌, ◌≤◌, ◌↔◌, [], IfOk, IsSome, IsTrue, length, map, true, false};
ghost use Rattle.lxr_layout.specs.Spaces.{AreLimits};
ghost use Rattle.lxr_sights.specs.Copies.{CanKeep, Every, IsSpare, seen_by, with_sight};
ghost use Rattle.lxr_sights.specs.Sights.{Looks, sight_of};

use crate::Watch;
use crate::copy::{copy_space, fits};
use lxr_base::Listed;
use lxr_image::Space;
use lxr_layout::Limits;
use std::alloc::{AllocError, Global};
use std::marker::Model;

/// A watch that keeps a copy of each space that it looks at, and tells all of them or nothing.
#[derive(Drop)]
pub struct Seen {
    limits: Limits,
    kept: Listed<Space>,
    /// Opened spaces, into which the next looks copy.
    spare: Listed<Space>,
    told: bool,
}

impl Model for Seen {
    ghost use Rattle.lxr_sights.specs.Copies.{Copies};

    ghost Value = { Copies };

    ghost use Rattle.lxr_sights.specs.Spares.{HasSpares, copies_of};

    ghost view = { copies_of };

    ghost invariant = { HasSpares };
}

/// So many spaces, each opened with these limits.
fn opened_spaces(alloc: Global, limits: Limits, count: usize) -> Result<Listed<Space>, AllocError>
    requires { AreLimits limits }
    ensures count { IfOk result (λ spaces. length spaces.items ≡ count) }
    ensures spare { IfOk result (λ spaces. Every (IsSpare limits) spaces.items) }
{
    let mut spaces = Listed::with_room(alloc, count)?;
    for _ in 0..count {
        let mut space = Space::empty(alloc);
        space.open(alloc, limits)?;
        spaces.push(space);
    }
    Ok(spaces)
}

impl Seen {
    /// A watch that has room for so many spaces of these limits, which is all that it will ever take, and has kept
    /// none. The condition is that the limits are allowed ones and that there are at most 65,536 spaces.
    pub fn new(alloc: Global, limits: Limits, sights: u32) -> Result<Seen, AllocError>
        requires limits { AreLimits limits }
        requires sights { sights ≤ 65536 }
        ensures { IfOk result (λ seen. seen ≡ record { limits = limits; sights = []; left = sights; told = true }) }
    {
        let count = sights as usize;
        Ok(Seen {
            limits,
            kept: Listed::with_room(alloc, count)?,
            spare: opened_spaces(alloc, limits, count)?,
            told: true,
        })
    }

    /// The kept spaces, oldest first.
    pub fn sights(&self) -> &[Space]
        ensures { map sight_of result.now ≡ self.now.sights }
    {
        self.kept.as_slice()
    }

    /// Whether it tells what it has seen: each space that it has looked at is kept.
    pub fn told(&self) -> bool
        ensures told { result ≡ self.now.told }
        ensures tells { IsTrue result ↔ IsSome (seen_by self.now) }
    {
        self.told
    }
}

impl Watch for Seen {
    ghost seen = { seen_by };

    /// Keeps a copy of the space, where it still tells, has room for one more and the space fits that room.
    /// Otherwise it tells nothing from now on, and what it has kept stays.
    fn look(&mut self, space: &Space)
        ensures looks { Looks (seen_by self.old) (seen_by self.new) (sight_of space.now) }
        ensures kept { CanKeep self.old space.now → self.new ≡ with_sight self.old (sight_of space.now) }
        ensures refused { ¬ CanKeep self.old space.now → self.new ≡ record self.old { told = false } }
    {
        if !self.told || !fits(space, self.limits) {
            self.told = false;
            return;
        }
        match self.spare.pop() {
            Some(mut copy) => {
                copy_space(&mut copy, space);
                self.kept.push(copy);
            }
            None => self.told = false,
        }
    }
}
