//! The lock, and how threads wait for one another.
use crate::board::{Awaited, Board, Seat};
use lxr_shared_heap::Station;
use std::alloc::Global;
use std::sync::{Condvar, Mutex, MutexGuard, Wait};

/// A board that threads share.
#[derive(Drop)]
pub struct Shared {
    board: Mutex<Board>,
    changed: Condvar,
}

impl Shared {
    /// Shares a board.
    pub fn new(board: Board) -> Shared {
        Shared {
            board: Mutex::new(board),
            changed: Condvar::new(),
        }
    }

    /// The board, once nobody shares it any more.
    pub fn into_board(self) -> Board {
        let Shared { board, changed: _ } = self;
        board.into_inner()
    }

    /// Waits for something, and takes the lock then.
    pub fn wait<R: Wait>(&self, rt: &R, awaited: Awaited) -> MutexGuard<'_, Board> {
        self.changed
            .wait_while(rt, self.board.lock(rt), |board| !board.has_come(awaited))
    }

    /// Tells all that the board has changed.
    pub fn tell_all(&self) {
        self.changed.notify_all();
    }

    /// Waits for something, and lets a pass out of its home then; none once all is over.
    pub fn let_out<R: Wait>(&self, rt: &R, awaited: Awaited, number: usize) -> Option<Station> {
        let station = self.wait(rt, awaited).let_out_to_play(number);
        if station.is_none() {
            self.tell_all();
        }
        station
    }

    /// Notes where a mutator sits.
    pub fn sit<R: Wait>(&self, rt: &R, alloc: Global, number: usize, seat: Seat) {
        self.board.lock(rt).sit(alloc, number, seat);
        self.tell_all();
    }

    /// Makes the pause where no thread orders any more.
    pub fn pause_where_due<R: Wait>(&self, rt: &R, alloc: Global) {
        self.board.lock(rt).pause_where_due(alloc);
        self.tell_all();
    }
}
