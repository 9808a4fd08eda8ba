//! How many blocks of a space are Free.
ghost use Rattle.std.specs.Prelude.{◌≡◌, ◌==◌, if◌then◌else◌, length};
ghost use Rattle.lxr_image.specs.Settled.{KnowsWords, free_below};
ghost use Rattle.lxr_image.specs.Tables.{tables_in};
ghost use Rattle.lxr_layout.specs.Spaces.{AreLimits, all_regions, region_begin};

use crate::settled::Settled;
use crate::tables::WordTable;
use lxr_layout::Limits;
use lxr_tables::{PlainWords, Words};

/// One for the state of a Free block, as a number, and none for another.
fn one_if_free(state: u64) -> u32
    ensures { result ≡ if state == 0 then 1 else 0 }
{
    u32::from(state == 0)
}

impl Settled {
    /// How many blocks of a space are Free. It reads the states of those alone of which nothing is known.
    pub(crate) fn free_blocks(&self, words: &PlainWords, limits: Limits) -> u32
        requires knows { KnowsWords self.now words.now }
        requires limits { AreLimits limits }
        requires size { length words.now ≡ region_begin limits all_regions }
        ensures { result ≡ free_below (tables_in limits words.now) limits.blocks }
    {
        let states = WordTable::States.begin(limits);
        let mut free = self.known_free_blocks(limits.blocks);
        let mut block = self.next_unknown(limits.blocks, 0);
        while block < limits.blocks {
            free += one_if_free(words.get(states + block as usize));
            block = self.next_unknown(limits.blocks, block + 1);
        }
        free
    }
}
