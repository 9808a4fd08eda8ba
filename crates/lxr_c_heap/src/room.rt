//! How many blocks are in use before the library collects: as the host says it, or as it grows with what lives.
ghost use Rattle.std.specs.Prelude.{◌≡◌};
ghost use Rattle.lxr_c_heap.specs.Rooms.{blocks_said as is_blocks_said, grown as is_grown, is_exceeded as is_more, room_after, room_behind, room_limit, used_of, with_blocks as is_with_blocks};
ghost use Rattle.lxr_c_heap.specs.Settings.{room_of};

use crate::pacing::{BLOCK_BYTES, LEAST_PACE};
use crate::settings::Settings;

/// The fewest blocks of a room that the library sets.
pub const LEAST_ROOM: u32 = 64;

/// The most hundredths by which a room grows.
pub const MOST_GROW: u32 = 10_000;

/// How many blocks are in use before a pause that is due collects.
#[derive(Clone, Copy, Debug, PartialEq, Eq)]
pub struct Room {
    /// All blocks of the heap.
    pub reserved: u32,
    /// So many, as the host has said it or the library has set it.
    pub blocks: u32,
    /// How many hundredths more than what lives the library sets behind each collecting pause; 0: it sets nothing.
    pub grow: u32,
    /// So many count: `blocks`, or more where the last collecting pause left nearly as many in use.
    pub most: u32,
}

/// As many blocks as are said, or all where 0 is.
fn blocks_said(reserved: u32, blocks: u32) -> u32
    ensures { result ≡ is_blocks_said reserved blocks }
{
    if blocks == 0 { reserved } else { blocks }
}

impl Room {
    /// The room that settings say.
    pub(crate) fn of(wanted: &Settings) -> Room
        ensures { result ≡ room_of wanted.now }
    {
        let blocks = blocks_said(wanted.blocks, wanted.room_said());
        Room {
            reserved: wanted.blocks,
            blocks,
            grow: wanted.grow_said(),
            most: blocks,
        }
    }

    /// The room of so many blocks, or of all by 0.
    pub(crate) fn with_blocks(self, blocks: u32) -> Room
        ensures { result ≡ is_with_blocks blocks self }
    {
        let blocks = blocks_said(self.reserved, blocks);
        Room {
            blocks,
            most: blocks,
            ..self
        }
    }

    /// The blocks in use, where so many are free.
    fn used(self, free: u32) -> u32
        ensures { result ≡ used_of self free }
    {
        self.reserved.saturating_sub(free)
    }

    /// What lives and so many hundredths more, at least `LEAST_ROOM`, at most all.
    fn grown(self, used: u32) -> u32
        ensures { result ≡ is_grown self used }
    {
        let used = u64::from(used);
        let more = used * u64::from(self.grow) / 100;
        (used + more)
            .max(u64::from(LEAST_ROOM))
            .min(u64::from(self.reserved)) as u32
    }

    /// The room behind a collecting pause that left so many blocks in use.
    fn behind(self, used: u32) -> Room
        ensures { result ≡ room_behind self used }
    {
        if self.grow == 0 {
            let quarter_more = u64::from(used) + u64::from(used) / 4;
            let most = quarter_more
                .max(u64::from(self.blocks))
                .min(u64::from(self.reserved)) as u32;
            return Room { most, ..self };
        }
        let blocks = self.grown(used);
        Room {
            blocks,
            most: blocks,
            ..self
        }
    }

    /// The room behind a pause that left so many blocks free.
    pub(crate) fn after(self, collect: bool, free: u32) -> Room
        ensures { result ≡ room_after collect self free }
    {
        if collect {
            self.behind(self.used(free))
        } else {
            self
        }
    }

    /// Whether more blocks are in use, where so many are free.
    pub(crate) fn is_exceeded(self, free: u32) -> bool
        ensures { result ≡ is_more self free }
    {
        self.most < self.used(free)
    }

    /// The bytes of new objects after which a pause is due by it, where so many blocks are free: 0 where more are in use, and none where it is all.
    pub(crate) fn limit(self, free: u32) -> Option<u64>
        ensures { result ≡ room_limit self free }
    {
        if self.reserved <= self.most {
            return None;
        }
        if self.is_exceeded(free) {
            return Some(0);
        }
        let left = self.most.saturating_sub(self.used(free));
        Some((BLOCK_BYTES * u64::from(left)).max(LEAST_PACE))
    }
}
