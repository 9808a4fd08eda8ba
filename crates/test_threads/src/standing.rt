//! Values relayed among standing threads: rows of what goes in, and what comes back, whatever the number of threads.
ghost use Rattle.std.specs.Prelude.{◌↔◌, ◌<◌, All, IsTrue};

use lxr_stand::{Turns, relay};
use std::alloc::{AllocError, Global};
use std::process::Abort;
use std::sync::Wait;
use std::test::Fail;
use std::thread::Threads;

/// A number that turns lower to 0, beside one that they raise.
#[derive(Clone, Copy, Debug, PartialEq, Eq)]
struct Step {
    down: u32,
    up: u32,
}

struct Count;

impl Turns<Step> for Count {
    ghost use Rattle.std.specs.Prelude.{◌≡◌, ◌+◌, ◌<◌, ◌==◌};

    ghost fits = { λ _ step. 0 < step.down };

    ghost made = { λ _ before after finished. (after.down + 1 ≡ before.down) × (finished ≡ (after.down == 0)) };

    ghost left = { λ _ step. step.down };

    fn turn(&self, step: &mut Step) -> bool {
        step.down -= 1;
        step.up = step.up.wrapping_add(1);
        step.down == 0
    }
}

/// Steps with so many turns to go each.
fn steps(alloc: Global, turns: &[u32]) -> Result<Vec<Step>, AllocError> {
    let mut all = Vec::new(alloc);
    for &down in turns {
        all.push(Step { down, up: 0 })?;
    }
    Ok(all)
}

/// Whether each has a turn to go.
fn can_count(steps: &[Step]) -> bool
    ensures { IsTrue result ↔ All (λ step. 0 < step.down) steps.now }
{
    steps.iter().all(|step| step.down > 0)
}

/// Relayed by so many threads, values come back with all turns made, in their order. Where they are refused, they are as they were, and the
/// refusal is handed on: only a run in which an allocation is made to fail may end so.
fn check<R: Threads + Wait + Abort + Sync>(
    rt: &R,
    alloc: Global,
    turns: &[u32],
    workers: u8,
) -> Result<(), AllocError> {
    let values = steps(alloc, turns)?;
    assert!(rt; values.len() <= 64 && workers >= 1 && workers <= 8);
    assert!(rt; can_count(values.as_slice()));
    match relay(rt, alloc, values, workers, &Count) {
        Ok(after) => {
            assert!(rt; after.len() == turns.len());
            for (step, &down) in after.iter().zip(turns) {
                assert_eq!(rt; *step, Step { down: 0, up: down });
            }
            Ok(())
        }
        Err(refused) => {
            assert!(rt; refused.values.len() == turns.len());
            for (step, &down) in refused.values.iter().zip(turns) {
                assert_eq!(rt; *step, Step { down, up: 0 });
            }
            Err(AllocError)
        }
    }
}

#[test]
fn relays(rt: HostRuntime) -> Result<(), Fail> {
    let rows: [&[u32]; 4] = [&[3, 1, 2], &[], &[1], &[1000, 1, 999, 2]];
    for turns in rows {
        for workers in [1, 2, 8] {
            check(&rt, rt.alloc(), turns, workers)?;
        }
    }
    Ok(())
}

#[test]
fn as_many_as_there_may_be(rt: HostRuntime) -> Result<(), Fail> {
    for workers in 1..9 {
        check(&rt, rt.alloc(), &[7; 64], workers)?;
    }
    Ok(())
}
