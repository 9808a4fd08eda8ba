//! Which blocks are taken: the first run of free ones, and a run that is taken.
ghost use Rattle.std.specs.Prelude.{◌≡◌, ℕ, ◌+◌, ◌≤◌, length, IfSome, IfNone};
ghost use Rattle.lxr_large_bodies.specs.Blocks.{AreFree, TakesRun, taken_count};

/// The first so many free blocks in a row.
pub(crate) fn free_run(taken: &[bool], blocks: u32) -> Option<u32>
    requires some { 1 ≤ blocks }
    requires few { length taken.now ≤ 65536 }
    ensures none { IfNone result ((first : ℕ) → first + blocks ≤ length taken.now → AreFree taken.now first blocks → ⊥) }
    ensures run { IfSome result (λ first. (first + blocks ≤ length taken.now) × AreFree taken.now first blocks) }
{
    let mut free = 0;
    for block in 0..taken.len() {
        if taken[block] {
            free = 0;
        } else {
            free += 1;
            if free == blocks {
                return Some(block as u32 - (blocks - 1));
            }
        }
    }
    None
}

/// How many blocks are free.
pub(crate) fn free_count(taken: &[bool]) -> u32
    requires { length taken.now ≤ 65536 }
    ensures { result + taken_count taken.now ≡ length taken.now }
{
    let mut free = 0;
    for block in 0..taken.len() {
        if !taken[block] {
            free += 1;
        }
    }
    free
}

/// Takes so many free blocks from one on.
pub(crate) fn take_run(taken: &mut [bool], first: u32, blocks: u32)
    requires within { first + blocks ≤ length taken.old }
    requires free { AreFree taken.old first blocks }
    ensures { TakesRun taken.old taken.new first blocks }
{
    let from = first as usize;
    for block in from..from + blocks as usize {
        taken[block] = true;
    }
}
