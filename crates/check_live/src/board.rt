//! What the threads of a host share under a lock: the heap, where each mutator stands, and whose turn it is.
use crate::draws::Draws;
use crate::watching::{Answered, Watching};
use lxr_graph::{Item, Items, Reply};
use lxr_shared_heap::{Heap, Paused, Resumed, Station};
use std::alloc::Global;

/// Where the pass of a mutator stands.
#[derive(Clone, Copy)]
pub enum Seat {
    /// Its thread orders operations.
    Playing,
    /// It is at home until a pause was made; and whether an operation waits for that.
    Home { waits: bool },
    /// It is at home for good.
    Ended,
    /// An operation was refused, or memory ran out.
    Wrong,
}

/// What a thread waits for.
#[derive(Clone, Copy)]
pub enum Awaited {
    /// The turn of a mutator.
    Turn(usize),
    /// That a mutator may order.
    Leave(usize),
    /// That some mutator may order.
    Play,
}

/// How far it has come.
#[derive(Clone, Copy)]
pub enum Stand {
    /// Some thread goes on.
    Running,
    /// All have ended, and the last pause is made.
    Over,
    /// Something came that should not, which is told.
    Wrong(&'static str),
}

/// What threads share.
#[derive(Drop)]
pub struct Board {
    heap: Heap,
    seats: Vec<Seat>,
    draws: Draws,
    /// How many take turns: the mutators, and helpers behind them.
    players: usize,
    /// The number of the one whose turn it is.
    turn: usize,
    pub stand: Stand,
    pub watching: Watching,
    pub order: Items,
    /// The `new`s that the pauses of one call answered.
    answered: Vec<Answered>,
}

/// The number of the thread of a mutator, from 1 on.
pub fn thread_of(number: usize) -> u8 {
    number.saturating_add(1).min(255) as u8
}

/// What has come of the wish to go on.
fn resume(alloc: Global, heap: &mut Heap) -> Resumed {
    heap.resume(alloc)
}

/// What has come of the wish for a pause.
fn pause(heap: &mut Heap, watching: &mut Watching) -> Paused {
    heap.pause_watched(watching)
}

/// Whether the operation of a station that waited for a pause was refused by it; none where it still waits.
fn was_refused(station: &Station) -> Option<bool> {
    if station.is_open() {
        None
    } else {
        Some(matches!(station.newest(), Some(Reply::Full)))
    }
}

impl Board {
    /// The board of a heap, which goes on to its first epoch.
    pub fn new(alloc: Global, heap: Heap, mutators: usize, players: usize, seed: u64) -> Board {
        let mut board = Board {
            heap,
            seats: Vec::new(alloc),
            draws: Draws::new(seed),
            players,
            turn: 0,
            stand: Stand::Running,
            watching: Watching::new(alloc),
            order: Items::new(alloc),
            answered: Vec::new(alloc),
        };
        board.seat_all(mutators);
        board.begin(alloc);
        board.draw_turn();
        board
    }

    /// Goes on to the first epoch.
    fn begin(&mut self, alloc: Global) {
        if !matches!(resume(alloc, &mut self.heap), Resumed::Open) {
            self.stand = Stand::Wrong("no heap");
        }
    }

    /// Lets so many mutators play.
    fn seat_all(&mut self, mutators: usize) {
        for _ in 0..mutators {
            if self.seats.push(Seat::Playing).is_err() {
                self.stand = Stand::Wrong("memory");
            }
        }
    }

    /// Whether all is over, or something is wrong.
    pub fn is_over(&self) -> bool {
        !matches!(self.stand, Stand::Running)
    }

    /// Whether what a thread waits for has come, or all is over.
    pub fn has_come(&self, awaited: Awaited) -> bool {
        self.is_over()
            || match awaited {
                Awaited::Turn(number) => self.turn == number,
                Awaited::Leave(number) => self.is_playing(number),
                Awaited::Play => self.some_plays(),
            }
    }

    /// Whether a mutator's thread may order.
    fn is_playing(&self, number: usize) -> bool {
        matches!(self.seats.get(number), Some(Seat::Playing))
    }

    /// Whether some mutator's thread may order.
    fn some_plays(&self) -> bool {
        self.seats.iter().any(|seat| matches!(seat, Seat::Playing))
    }

    /// Whether one of those who take turns can do something.
    fn can_play(&self, number: usize) -> bool {
        if number < self.seats.len() {
            self.is_playing(number)
        } else {
            self.some_plays()
        }
    }

    /// Draws whose turn is next, among those who can do something.
    pub fn draw_turn(&mut self) {
        let count = self.players.max(1);
        let first = self.draws.below(count);
        for step in 0..count {
            let number = first.saturating_add(step) % count;
            if self.can_play(number) {
                self.turn = number;
                return;
            }
        }
    }

    /// Draws one of two.
    pub fn draw_coin(&mut self) -> bool {
        self.draws.below(2) == 0
    }

    /// Draws how many units a helper does.
    pub fn draw_units(&mut self) -> u32 {
        self.draws.below(8).min(7) as u32 + 1
    }

    /// The pass of a number, where it is at home.
    pub fn let_out(&mut self, number: usize) -> Option<Station> {
        let station = self.heap.let_out(number).ok();
        if station.is_none() {
            self.stand = Stand::Wrong("a pass is not let out");
        }
        station
    }

    /// The same, as long as some thread goes on.
    pub fn let_out_to_play(&mut self, number: usize) -> Option<Station> {
        if self.is_over() {
            None
        } else {
            self.let_out(number)
        }
    }

    /// Notes a call of a mutator.
    pub fn note_call(&mut self, number: usize) {
        if self.order.try_push(Item::Call(thread_of(number))).is_err() {
            self.stand = Stand::Wrong("memory");
        }
    }

    /// Notes where a mutator stands, and makes the pause if no thread orders any more.
    pub fn sit(&mut self, alloc: Global, number: usize, seat: Seat) {
        if let Some(place) = self.seats.get_mut(number) {
            *place = seat;
        }
        if matches!(seat, Seat::Wrong) {
            self.stand = Stand::Wrong("an operation is refused");
        }
        self.pause_where_due(alloc);
    }

    /// Makes the pause where no thread orders any more. A helper that is away makes it when it has come home.
    pub fn pause_where_due(&mut self, alloc: Global) {
        if !self.is_over() && !self.some_plays() {
            self.pause(alloc);
        }
    }

    /// Makes the pause, if nobody is away.
    fn pause(&mut self, alloc: Global) {
        match pause(&mut self.heap, &mut self.watching) {
            Paused::Made => self.resume(alloc),
            Paused::Away(_) => {}
            Paused::Shared => {}
            _ => self.stand = Stand::Wrong("no pause is made"),
        }
    }

    /// Goes on after a pause, with those at home, or ends.
    fn resume(&mut self, alloc: Global) {
        match resume(alloc, &mut self.heap) {
            Resumed::Open => self.go_on(),
            Resumed::Ended => self.end(),
            _ => self.stand = Stand::Wrong("no epoch is opened"),
        }
    }

    /// Goes on in the next epoch: notes the pauses that were just made, and the `new`s that they answered.
    fn go_on(&mut self) {
        self.note_answers();
        self.watching.note(&self.answered, &mut self.order);
        self.answered.clear();
        self.stand_up();
        if self.watching.is_lost {
            self.stand = Stand::Wrong("memory");
        }
    }

    /// Ends: notes the last pauses.
    fn end(&mut self) {
        self.watching.note(&[], &mut self.order);
        self.stand = if self.watching.is_lost {
            Stand::Wrong("memory")
        } else {
            Stand::Over
        };
    }

    /// Notes the `new`s that the pauses which were just made answered.
    fn note_answers(&mut self) {
        for number in 0..self.seats.len() {
            if let Some(is_full) = self.answer_to(number) {
                self.note_answer(number, is_full);
            }
        }
    }

    /// Notes a `new` that was answered.
    fn note_answer(&mut self, number: usize, is_full: bool) {
        let thread = thread_of(number);
        if self.answered.push(Answered { thread, is_full }).is_err() {
            self.watching.is_lost = true;
        }
    }

    /// Whether the operation of a mutator that waited for a pause was refused by it; none where none waited, or where it still does.
    fn answer_to(&self, number: usize) -> Option<bool> {
        match self.seats.get(number) {
            Some(Seat::Home { waits: true }) => self.answer_at(number),
            _ => None,
        }
    }

    /// The same of a mutator at home.
    fn answer_at(&self, number: usize) -> Option<bool> {
        match self.heap.let_out(number) {
            Ok(station) => was_refused(&station),
            Err(_) => None,
        }
    }

    /// All that are at home for a pause may order again.
    fn stand_up(&mut self) {
        for seat in self.seats.iter_mut() {
            if let Seat::Home { .. } = *seat {
                *seat = Seat::Playing;
            }
        }
        self.draw_turn();
    }
}
