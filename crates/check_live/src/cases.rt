//! A case: how a script is played, and the script.
use lxr_graph::Op;
use lxr_shared_heap::{RUNS_LISTED, Settings};
use lxr_text_script::{Script, read_script};
use std::alloc::Global;

/// How a script is played, and the script.
#[derive(Drop)]
pub struct Case<'a> {
    /// The words that say how.
    pub title: &'a str,
    pub script: Script,
}

/// The number behind `NAME=`, where a word says this.
fn number_in(word: &str, name: &str) -> Option<u64> {
    let (said, number) = word.split_once('=')?;
    if said == name {
        number.parse().ok()
    } else {
        None
    }
}

impl<'a> Case<'a> {
    /// A case with these words; none where the text is no script, or memory runs out.
    pub fn new(alloc: Global, title: &'a str, text: &str) -> Option<Case<'a>> {
        let script = read_script(alloc, text.as_bytes()).ok()?;
        Some(Case { title, script })
    }

    /// Whether a word stands in the title.
    pub fn has(&self, name: &str) -> bool {
        self.title.split(' ').any(|word| word == name)
    }

    /// The number behind a word `NAME=`, where it stands there.
    pub fn number(&self, name: &str) -> Option<u64> {
        for word in self.title.split(' ') {
            let number = number_in(word, name);
            if number.is_some() {
                return number;
            }
        }
        None
    }

    /// A number of the settings, or its default.
    fn setting(&self, name: &str, default: u32) -> u32 {
        match self.number(name) {
            Some(number) => number.min(u64::from(u32::MAX)) as u32,
            None => default,
        }
    }

    /// What the heap is opened with.
    pub fn settings(&self) -> Settings {
        let blocks = self.setting("blocks", 64);
        Settings {
            blocks,
            mutators: self.mutators(),
            helpers: self.helpers(),
            log: self.setting("log", 1024),
            remember: self.setting("remember", 4096),
            registers: self.setting("registers", 16).min(65_535) as u16,
            evacuate: self.setting("evacuate", blocks / 8),
            every: self.setting("every", 1024),
            trace: self.setting("trace", 8),
            within: self.setting("within", 4),
            runs: self.setting("runs", RUNS_LISTED),
            names: true,
        }
    }

    /// How many mutators there are.
    pub fn mutators(&self) -> u8 {
        let threads = u32::from(self.script.threads);
        self.setting("mutators", threads).min(255) as u8
    }

    /// What a mutator orders: what a thread of the script does, each thread in turn.
    pub fn operations_of(&self, number: usize) -> &[Op] {
        let threads = self.script.operations.as_slice();
        match threads.get(number % threads.len().max(1)) {
            Some(operations) => operations.as_slice(),
            None => &[],
        }
    }

    /// How many decrementers there are, and as many tracers.
    pub fn helpers(&self) -> u8 {
        self.setting("helpers", 1).min(255) as u8
    }

    /// The seed of turns, where threads order by turns.
    pub fn turns(&self) -> Option<u64> {
        self.number("turns")
    }
}
