//! The limits of a space, and the first words of its regions.

/// How large a space is.
#[derive(Clone, Copy, Debug, PartialEq, Eq)]
pub struct Limits {
    /// Blocks of the heap, 1 to `MOST_BLOCKS`.
    pub blocks: u32,
    /// Threads, 1 to 255.
    pub threads: u8,
    /// Entries of one thread's log, 1 to 65,536.
    pub log: u32,
    /// Entries of the remembered set, 1 to 1,048,576.
    pub remember: u32,
    /// Registers that a thread may name, `LEAST_REGISTERS` to `REGISTERS`.
    pub registers: u16,
    /// The most blocks that are chosen for evacuation when a trace begins, 0 to an eighth of all.
    pub evacuate: u32,
}

/// The index of the first word of each region of a space, and the number of all its words.
#[derive(Clone, Copy, Debug, PartialEq, Eq)]
pub struct Regions {
    /// Objects.
    pub heap: u32,
    /// `COUNT_BITS` bits a granule: the reference count of the object that begins there, or a line mark.
    pub counts: u32,
    /// A bit a granule: an object that was promoted and isn't reclaimed begins there.
    pub starts: u32,
    /// A bit a granule: the tracer has marked the object.
    pub marks: u32,
    /// A bit a granule: the tracer has found the object.
    pub grays: u32,
    /// A bit a granule: the dead object is claimed for handling.
    pub dones: u32,
    /// A bit a heap word: the reference hasn't been written since the last pause.
    pub unlogged: u32,
    /// 32 bits a line, the even line in the low half: how often it was handed out.
    pub reuse: u32,
    /// A bit a line: handed out since the last promotion.
    pub outs: u32,
    /// A word a block: its state.
    pub states: u32,
    /// Runs of free lines.
    pub runs: u32,
    /// Numbers of free blocks.
    pub frees: u32,
    /// Places whose counts are to be lowered.
    pub decs: u32,
    /// Remembered entries.
    pub remembered: u32,
    /// The pause word, the cursors and lengths of the tables above, and the tracing word.
    pub cursors: u32,
    /// The number of all words.
    pub total: u32,
}
