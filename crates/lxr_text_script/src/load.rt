//! Scripts made from a number: a load that makes much garbage, with cycles, and keeps a little alive.
//!
//! Each thread has four slots of the world for its own. A round makes two objects that refer to each other, links them
//! to the slot's last ones, whose own link is cut, and puts them in their place. So at most 18 objects a thread are
//! reachable beside the world at any time.
ghost use Rattle.std.specs.Prelude.{◌≡◌, ◌<◌, ◌≤◌, IfOk};
ghost use Rattle.lxr_text_script.specs.Limits.{IsScript, IsThread};
ghost use Rattle.lxr_text_script.specs.Reading.{threads_in};
ghost use Rattle.lxr_base.specs.Draws.{draw as drawn, step};
ghost use Rattle.lxr_text_script.specs.Load as load;

use crate::{Lists, Script};
use lxr_base::draw;
use lxr_graph::{Op, Operations};
use lxr_layout::Shape;
use std::alloc::{AllocError, Global};

/// The generator of one thread's numbers.
#[derive(Drop)]
struct Generator {
    state: u64,
}

impl Generator {
    fn draw(&mut self) -> u32
        ensures state { self.new.state ≡ step self.old.state }
        ensures drawn { result ≡ drawn self.new.state }
    {
        draw(&mut self.state)
    }
}

/// The ten operations of a round.
#[tactic(auto, unfolding(crate::specs::Load::round))]
fn round(thread: u8, size: u16, slot: u16, value: u64) -> [Op; 10]
    requires thread { (1 ≤ thread) × (thread ≤ 16) }
    requires slot { slot < 4 }
    ensures { result ≡ load.round thread size slot value }
{
    let index = 4 * u16::from(thread - 1) + slot;
    let pair = Shape {
        refs: 2,
        values: size,
    };
    let leaf = Shape { refs: 1, values: 1 };
    [
        Op::New {
            dest: 1,
            shape: pair,
        },
        Op::New {
            dest: 2,
            shape: leaf,
        },
        Op::Store {
            base: 1,
            index: 0,
            source: 2,
        },
        Op::Store {
            base: 2,
            index: 0,
            source: 1,
        },
        Op::Put {
            base: 2,
            index: 0,
            value,
        },
        Op::Load {
            dest: 3,
            base: 0,
            index,
        },
        Op::Store {
            base: 1,
            index: 1,
            source: 3,
        },
        Op::Store {
            base: 3,
            index: 1,
            source: 15,
        },
        Op::Store {
            base: 0,
            index,
            source: 1,
        },
        Op::Get { base: 2, index: 0 },
    ]
}

/// The operations of one thread.
fn make_thread(alloc: Global, seed: u64, thread: u8, rounds: u32) -> Result<Operations, AllocError>
    requires thread { (1 ≤ thread) × (thread ≤ 16) }
    requires rounds { rounds ≤ 100000 }
    ensures { IfOk result (λ operations. operations.items ≡ load.thread seed rounds thread) }
{
    let mut operations = Vec::with_capacity(alloc, 10 * rounds as usize)?;
    let mut generator = Generator {
        state: seed.wrapping_add(u64::from(thread)),
    };
    for _ in 0..rounds {
        let size = (generator.draw() % 30) as u16;
        let slot = (generator.draw() % 4) as u16;
        let value = u64::from(generator.draw());
        operations.extend_from_slice(&round(thread, size, slot, value))?;
    }
    Ok(Operations::from_vec(operations))
}

/// The script that a seed makes for 1 to 16 threads of 1 to 100,000 rounds of ten operations.
pub fn make_load(alloc: Global, seed: u64, threads: u8, rounds: u32) -> Result<Script, AllocError>
    requires threads { (1 ≤ threads) × (threads ≤ 16) }
    requires rounds { (1 ≤ rounds) × (rounds ≤ 100000) }
    ensures threads { IfOk result (λ script. script.threads ≡ threads) }
    ensures operations { IfOk result (λ script. threads_in script ≡ load.load seed threads rounds) }
    ensures limits { IfOk result (λ script. IsScript (threads_in script)) }
{
    let mut lists = Vec::with_capacity(alloc, usize::from(threads))?;
    for made in 0..threads {
        let operations = make_thread(alloc, seed, made + 1, rounds)?;
        lists.push(operations)?;
    }
    Ok(Script {
        threads,
        operations: Lists::from_vec(lists),
    })
}
