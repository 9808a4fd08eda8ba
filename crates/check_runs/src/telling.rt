//! What is told of a run.
use crate::asked::Asked;
use crate::heaps::{entries_of, heap_of, held_in, remembered, word, words_of};
use crate::looking::{Glance, Looking, Meet};
use crate::running::Ran;
use lxr_image::Space;
use lxr_text_stream::Kept;
use std::io;
use std::rt::Clock;

/// What was written to a stream.
fn text_of(stream: &Kept) -> &str {
    str::from_utf8(stream.written()).unwrap_or("no text\n")
}

/// Tells what is asked for.
pub fn tell<R: AllocGlobal + Clock + Print>(
    rt: &R,
    asked: &Asked<'_>,
    ran: &Ran<'_, R>,
) -> io::Result<()> {
    print!(rt; "-- status {}\n{}", ran.code, text_of(&ran.errors))?;
    if asked.number("times") != 0 {
        return tell_times(rt, &ran.gate, &ran.watch.glances);
    }
    print!(rt; "-- output\n{}", text_of(&ran.output))?;
    tell_numbers(rt, &ran.space)?;
    tell_gate(rt, &ran.gate)?;
    if asked.number("heap") != 0 {
        tell_space(rt, asked, &ran.space)?;
        tell_sights(rt, &ran.watch)?;
    }
    Ok(())
}

/// Tells when the first operation came, and what was seen at each look.
fn tell_times<R: Clock + Print>(rt: &R, gate: &Meet<'_, R>, glances: &[Glance]) -> io::Result<()> {
    println!(rt; "-- times {}", gate.first())?;
    for glance in glances {
        println!(rt;
            "{} {} {} {} {} {} {} {} {}",
            glance.begun,
            glance.ended,
            glance.logged,
            glance.promoted,
            glance.dead,
            glance.swept,
            glance.moved,
            glance.kept,
            glance.free
        )?;
    }
    Ok(())
}

/// Tells whether a space was opened, and its tally.
fn tell_numbers(rt: &impl Print, space: &Space) -> io::Result<()> {
    let tally = space.tally();
    let opened = if space.is_empty() { "empty" } else { "opened" };
    println!(rt;
        "-- space {opened}\n-- moved {} {}",
        tally.moved, tally.kept
    )?;
    println!(rt;
        "-- tally\nnews {}\nloads {}\nstores {}\nlogs {}\npauses {}\nmoved {}\nkept {}",
        tally.news, tally.loads, tally.stores, tally.logs, tally.pauses, tally.moved, tally.kept
    )
}

/// Tells how often the gate was passed, and whether the other thread came before it gave up.
fn tell_gate<R: Clock + Print>(rt: &R, gate: &Meet<'_, R>) -> io::Result<()> {
    let how = if gate.gave_up() { "alone" } else { "met" };
    println!(rt; "-- gate {}\n-- meet {how}", gate.passes())
}

/// Tells the objects of a heap, what it remembers, and the words that are asked for.
fn tell_space<R: AllocGlobal + Print>(rt: &R, asked: &Asked<'_>, space: &Space) -> io::Result<()> {
    let heap = heap_of(rt.alloc(), space)?;
    print!(rt; "-- heap\n{}", heap.as_str())?;
    let entries = entries_of(rt.alloc(), space)?;
    println!(rt; "-- remembered {}", remembered(space))?;
    print!(rt; "-- entries\n{}", entries.as_str())?;
    println!(rt; "-- at")?;
    tell_words(rt, asked, space)
}

/// Tells the words of a space that are asked for, each behind its number.
fn tell_words(rt: &impl Print, asked: &Asked<'_>, space: &Space) -> io::Result<()> {
    for (name, at) in &asked.things {
        if *name == "at" {
            println!(rt; "{at} {}", word(space, *at as usize))?;
        }
    }
    Ok(())
}

/// Tells whether a watch tells, and of each sight the pauses, the registers that hold something, the objects, and the words of the heap that aren't 0.
fn tell_sights<R: AllocGlobal + Clock + Print>(rt: &R, watch: &Looking<'_, R>) -> io::Result<()> {
    println!(rt; "-- sights\ntold {}", watch.seen.told())?;
    for sight in watch.seen.sights() {
        let heap = heap_of(rt.alloc(), sight)?;
        let words = words_of(rt.alloc(), sight)?;
        println!(rt; "pauses {}\nregisters {}", sight.pauses, held_in(sight))?;
        print!(rt; "{}{}", heap.as_str(), words.as_str())?;
    }
    Ok(())
}
