//! A thread of the host that plays a mutator or helps.
use crate::board::{Awaited, Board, Seat};
use crate::shared::Shared;
use lxr_graph::{Op, Operations, Replies, Reply};
use lxr_shared_heap::{Answer, Station};
use std::alloc::{AllocError, Global};
use std::sync::Wait;

/// What has come of a step of a mutator.
#[derive(Clone, Copy)]
enum Step {
    /// An operation is done.
    Done,
    /// The pause before it had answered an operation.
    Answered,
    /// It is to come home for a pause; and whether an operation waits.
    Held { waits: bool },
    /// Its thread has done its end.
    Ended,
    /// Memory ran out, or an operation is refused.
    Wrong,
}

/// How a thread plays.
#[derive(Clone, Copy)]
pub enum Way {
    /// It orders operations by turns, each under the lock.
    ByTurns,
    /// It orders operations as it likes.
    Freely,
    /// It helps by turns, each under the lock.
    HelpsByTurns,
    /// It helps as it likes.
    HelpsFreely,
}

/// The thread of a mutator or of a helper: a helper has no operations.
#[derive(Drop)]
pub struct Player {
    pub number: usize,
    way: Way,
    pub operations: Operations,
    pub replies: Replies,
    /// Whether an operation was taken up and has no reply yet.
    is_open: bool,
}

impl Player {
    /// The thread of a number, with the operations that it orders.
    pub fn new(
        alloc: Global,
        number: usize,
        way: Way,
        operations: &[Op],
    ) -> Result<Player, AllocError> {
        Ok(Player {
            number,
            way,
            operations: Operations::from_vec(Vec::from_slice(alloc, operations)?),
            replies: Replies::new(alloc),
            is_open: false,
        })
    }

    /// Keeps a reply, if it has come: then the step is done, or was answered by a pause.
    fn keep(&mut self, reply: Option<Reply>, step: Step) -> Step {
        let Some(reply) = reply else {
            return Step::Held { waits: true };
        };
        self.is_open = false;
        match self.replies.try_push(reply) {
            Ok(()) => step,
            Err(_) => Step::Wrong,
        }
    }

    /// Orders the next operation, goes on with one that is open, or ends.
    fn step(&mut self, station: &mut Station) -> Step {
        if self.is_open {
            return self.go_on(station);
        }
        match self.operations.get(self.replies.len()) {
            Some(op) => self.order(station, op),
            None => end(station),
        }
    }

    /// Goes on with the operation that is open, unless a pause has answered it.
    fn go_on(&mut self, station: &mut Station) -> Step {
        if station.is_open() {
            let reply = station.go_on();
            self.keep(reply, Step::Done)
        } else {
            self.keep(station.newest(), Step::Answered)
        }
    }

    /// Orders an operation.
    fn order(&mut self, station: &mut Station, op: Op) -> Step {
        match operate(station, op) {
            Answer::Done(reply) => self.keep(Some(reply), Step::Done),
            Answer::Waits => {
                self.is_open = true;
                Step::Held { waits: true }
            }
            Answer::Pause => Step::Held { waits: false },
            Answer::Ended => Step::Wrong,
            Answer::Refused => Step::Wrong,
        }
    }
}

/// What an operation answers.
fn operate(station: &mut Station, op: Op) -> Answer {
    station.operate(op)
}

/// Does the end of a thread.
fn end(station: &mut Station) -> Step {
    if station.end() {
        Step::Ended
    } else {
        Step::Held { waits: false }
    }
}

impl Player {
    /// Plays until all is over.
    pub fn play<R: Wait>(&mut self, rt: &R, alloc: Global, shared: &Shared) {
        match self.way {
            Way::ByTurns => self.play_by_turns(rt, alloc, shared),
            Way::Freely => self.play_freely(rt, alloc, shared),
            Way::HelpsByTurns => self.play_by_turns(rt, alloc, shared),
            Way::HelpsFreely => self.help(rt, alloc, shared),
        }
    }

    /// Takes turns, under the lock, until all is over.
    fn play_by_turns<R: Wait>(&mut self, rt: &R, alloc: Global, shared: &Shared) {
        let mut station = None;
        for _ in rt.forever() {
            let mut board = shared.wait(rt, Awaited::Turn(self.number));
            let goes_on = self.take_turn(alloc, &mut board, &mut station);
            drop(board);
            if !goes_on {
                return;
            }
            shared.tell_all();
        }
    }

    /// Does something in its turn, and draws whose turn is next. Whether it goes on.
    fn take_turn(
        &mut self,
        alloc: Global,
        board: &mut Board,
        station: &mut Option<Station>,
    ) -> bool {
        if board.is_over() {
            return false;
        }
        match self.way {
            Way::HelpsByTurns => self.help_in_turn(board),
            _ => self.step_in_turn(alloc, board, station),
        }
        board.draw_turn();
        true
    }

    /// Does one step in its turn. It keeps the station unless it comes home.
    fn step_in_turn(&mut self, alloc: Global, board: &mut Board, station: &mut Option<Station>) {
        if station.is_none() {
            *station = board.let_out(self.number);
        }
        let Some(held) = station.as_mut() else {
            return;
        };
        let step = self.look_or_step(board, held);
        if is_call(step) {
            board.note_call(self.number);
        }
        if !goes_on(step) {
            *station = None;
            board.sit(alloc, self.number, seat_of(step));
        }
    }

    /// Does some units of a helper in its turn. It keeps no station.
    fn help_in_turn(&self, board: &mut Board) {
        let units = board.draw_units();
        if let Some(mut station) = board.let_out(self.number) {
            station.help(units);
        }
    }

    /// Does a step; or none, as it is drawn, where a pause is wanted.
    fn look_or_step(&mut self, board: &mut Board, station: &mut Station) -> Step {
        if station.wants_pause() && !self.is_open && board.draw_coin() {
            Step::Held { waits: false }
        } else {
            self.step(station)
        }
    }

    /// Orders operation upon operation as it likes, and comes home where a pause is wanted, until all is over.
    fn play_freely<R: Wait>(&mut self, rt: &R, alloc: Global, shared: &Shared) {
        for _ in rt.forever() {
            let Some(station) = shared.let_out(rt, Awaited::Leave(self.number), self.number) else {
                return;
            };
            let seat = self.go_and_come_home(station);
            shared.sit(rt, alloc, self.number, seat);
        }
    }

    /// Orders operation upon operation until a pause is wanted or it has ended, and comes home. Where it sits then.
    fn go_and_come_home(&mut self, mut station: Station) -> Seat {
        self.go_far(&mut station)
    }

    /// Orders operation upon operation until a pause is wanted or it has ended. Where it sits then.
    fn go_far(&mut self, station: &mut Station) -> Seat {
        let most = self.operations.len().saturating_add(2);
        for _ in 0..most {
            let step = self.step(station);
            if !goes_on(step) {
                return seat_of(step);
            }
        }
        Seat::Ended
    }

    /// Helps, as long as some mutator goes on.
    fn help<R: Wait>(&self, rt: &R, alloc: Global, shared: &Shared) {
        for _ in rt.forever() {
            let Some(mut station) = shared.let_out(rt, Awaited::Play, self.number) else {
                return;
            };
            station.help(64);
            station.come_home();
            shared.pause_where_due(rt, alloc);
        }
    }
}

/// Whether a call is done with a step.
fn is_call(step: Step) -> bool {
    matches!(step, Step::Done | Step::Ended)
}

/// Whether a mutator does further steps after one.
fn goes_on(step: Step) -> bool {
    matches!(step, Step::Done | Step::Answered)
}

/// Where a mutator sits after a step that isn't done.
fn seat_of(step: Step) -> Seat {
    match step {
        Step::Held { waits } => Seat::Home { waits },
        Step::Ended => Seat::Ended,
        _ => Seat::Wrong,
    }
}
