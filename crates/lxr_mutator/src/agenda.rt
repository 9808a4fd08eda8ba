//! What a thread is asked for, and what it has replied.
//!
//! A thread of a script keeps all its operations and replies, which are printed at the end. A live one keeps the operation at hand, its
//! newest reply and how many there were; the lists are there for proofs alone.
ghost use Rattle.std.specs.Prelude.{◌≡◌, ◌+◌, ◌<◌, ◌≤◌, [], ◌∷◌, ◌++◌, drop, IfOk, IfSome, IsTrue, length, slice_index_or};
ghost use Rattle.lxr_base.specs.Roomy.{pushed};
ghost use Rattle.lxr_alloc.specs.declared.TheConstants.{MOST_OPERATIONS};
ghost use Rattle.lxr_mutator.specs.Keeping.{kept_with, next_kept};
ghost use Rattle.lxr_mutator.specs.Dialogues.{begun_anew, first_dialogue, has_more_room, most_operations, newest, op_at_hand, with_op, with_reply};

use lxr_alloc::MOST_OPERATIONS;
use lxr_base::{Chronicle, Listed};
use lxr_graph::{Op, Operations, Replies, Reply};
use std::alloc::{AllocError, Global};
use std::marker::Model;

/// The operations of a thread and its replies, in order.
#[derive(Drop)]
pub struct Agenda {
    orders: Chronicle<Op>,
    answers: Chronicle<Reply>,
    /// How many operations there are.
    ordered: u32,
    /// How many replies there are, that of the thread's end among them.
    answered: u32,
    /// For how many operations, with their replies, there is room.
    most: u32,
    /// The operation whose turn it is, while there is one without a reply.
    at_hand: Op,
    newest: Option<Reply>,
    kept: Option<Kept>,
}

/// The lists of a thread of a script.
#[derive(Drop)]
struct Kept {
    operations: Operations,
    replies: Replies,
}

/// The most operations of a thread of this number: 67,108,864, and a sixteenth of that after the sixteenth thread, so that all threads of a heap
/// together do fewer than 2^31.
pub fn most_operations(thread: u8) -> u32
    ensures most { result ≡ most_operations thread }
    ensures few { result ≤ MOST_OPERATIONS }
{
    if thread <= 16 {
        MOST_OPERATIONS
    } else {
        MOST_OPERATIONS / 16
    }
}

impl Model for Agenda {
    ghost use Rattle.lxr_mutator.specs.Dialogues.{Dialogue};

    ghost Value = { Dialogue };

    ghost use Rattle.lxr_mutator.specs.Agendas.{dialogue, IsAgenda};

    ghost view = { dialogue };

    ghost invariant = { IsAgenda };
}

impl Agenda {
    /// The agenda of a thread of a script, with all its operations. It takes the memory for all replies, and has no room for orders.
    pub fn of_script(alloc: Global, operations: Operations) -> Result<Agenda, AllocError>
        requires { length operations.items ≤ MOST_OPERATIONS }
        ensures { IfOk result (λ a. a ≡ first_dialogue operations.items (length operations.items)) }
    {
        let replies = Listed::with_room(alloc, operations.len() + 1)?;
        let count = operations.len() as u32;
        Ok(Agenda {
            orders: Chronicle::of(&operations),
            answers: Chronicle::of(&replies),
            ordered: count,
            answered: 0,
            most: count,
            at_hand: operation_at(&operations, 0),
            newest: None,
            kept: Some(Kept {
                operations,
                replies,
            }),
        })
    }

    /// The agenda of a thread that is yet to be ordered its operations, at most so many. It takes no memory.
    pub fn live(most: u32) -> Agenda
        requires { most ≤ MOST_OPERATIONS }
        ensures { result ≡ first_dialogue [] (most + 1) }
    {
        Agenda {
            orders: Chronicle::new(),
            answers: Chronicle::new(),
            ordered: 0,
            answered: 0,
            most: most + 1,
            at_hand: Op::End,
            newest: None,
            kept: None,
        }
    }

    /// How many operations there are.
    #[inline(always)]
    pub fn ordered(&self) -> u32
        ensures { result ≡ length self.now.operations }
    {
        self.ordered
    }

    /// How many replies there are.
    #[inline(always)]
    pub fn answered(&self) -> u32
        ensures { result ≡ length self.now.replies.items }
    {
        self.answered
    }

    /// The operation whose turn it is: the first without a reply, and the thread's end once all have one.
    #[inline(always)]
    pub fn op(&self) -> Op
        ensures { result ≡ op_at_hand self.now }
    {
        if self.answered < self.ordered {
            self.at_hand
        } else {
            Op::End
        }
    }

    /// The same where an operation has no reply yet.
    #[inline(always)]
    pub fn open_op(&self) -> Op
        requires { length self.now.replies.items < length self.now.operations }
        ensures { result ≡ op_at_hand self.now }
    {
        self.at_hand
    }

    /// The newest reply; none before the first.
    #[inline(always)]
    pub fn newest(&self) -> Option<Reply>
        ensures { result ≡ newest self.now }
    {
        self.newest
    }

    /// Whether there is room for one more operation with its reply.
    #[inline(always)]
    pub fn has_room(&self) -> bool
        ensures { result ≡ has_more_room self.now }
    {
        self.ordered + 1 < self.most
    }

    /// Puts an operation behind those that there are, all of which have their reply.
    #[inline(always)]
    pub fn order(&mut self, op: Op)
        requires idle { length self.old.replies.items ≡ length self.old.operations }
        requires room { IsTrue (has_more_room self.old) }
        ensures { self.new ≡ with_op self.old op }
    {
        self.orders = self.orders.and(&op);
        self.ordered += 1;
        self.at_hand = op;
    }

    /// Says again which operation's turn it is: the code that follows is made for that one.
    #[inline(always)]
    pub fn recall(&mut self, op: Op)
        requires { op ≡ op_at_hand self.old }
        ensures { self.new ≡ self.old }
    {
        self.at_hand = op;
    }

    /// Puts a reply behind those that there are.
    #[inline(always)]
    pub fn answer(&mut self, reply: Reply)
        requires { length self.old.replies.items < self.old.replies.room }
        ensures { self.new ≡ with_reply self.old reply }
    {
        self.answers = self.answers.and(&reply);
        self.answered += 1;
        self.newest = Some(reply);
        let Some(newest) = &self.newest else {
            unreachable!();
        };
        keep_reply(&mut self.kept, newest, &mut self.at_hand);
    }

    /// Begins anew: the operation that is open, if one is, is the only one, and there are no replies. The thread is a live one.
    pub fn renew(&mut self)
        requires { length self.old.operations + 1 < self.old.replies.room }
        ensures { self.new ≡ begun_anew self.old }
    {
        self.orders = self.open_orders();
        self.ordered = self.ordered.saturating_sub(self.answered);
        self.answers = Chronicle::new();
        self.answered = 0;
        self.newest = None;
    }

    /// The operation that is open, if one is, of a live thread.
    fn open_orders(&self) -> Chronicle<Op>
        requires { length self.now.operations + 1 < self.now.replies.room }
        ensures { result.items ≡ drop (length self.now.replies.items) self.now.operations }
    {
        if self.answered < self.ordered {
            Chronicle::new().and(&self.at_hand)
        } else {
            Chronicle::new()
        }
    }

    /// All operations of a thread of a script.
    pub fn operations(&self) -> &Operations
        requires { self.now.replies.room ≤ length self.now.operations + 1 }
        ensures { result.now.items ≡ self.now.operations }
    {
        let Some(kept) = &self.kept else {
            unreachable!();
        };
        &kept.operations
    }

    /// All replies of a thread of a script.
    pub fn replies(&self) -> &Replies
        requires { self.now.replies.room ≤ length self.now.operations + 1 }
        ensures { result.now ≡ self.now.replies }
    {
        let Some(kept) = &self.kept else {
            unreachable!();
        };
        &kept.replies
    }
}

impl Kept {
    /// Puts a reply behind those that there are, and tells the operation whose turn it is then.
    #[cold]
    #[inline(never)]
    fn answer(&mut self, reply: &Reply, at_hand: &mut Op)
        requires { length self.old.replies.items < self.old.replies.room }
        ensures kept { self.new ≡ record self.old { replies = pushed self.old.replies reply.now } }
        ensures next { at_hand.new ≡ slice_index_or self.old.operations.items (length self.old.replies.items + 1) Op.End }
    {
        self.replies.push(*reply);
        *at_hand = operation_at(&self.operations, self.replies.len());
    }
}

/// Puts a reply into the lists that are kept, and tells the operation whose turn it is then; where none are kept, that stays what it was.
#[inline(always)]
fn keep_reply(kept: &mut Option<Kept>, reply: &Reply, at_hand: &mut Op)
    requires { IfSome kept.old (λ k. length k.replies.items < k.replies.room) }
    ensures kept { kept.new ≡ kept_with kept.old reply.now }
    ensures next { at_hand.new ≡ next_kept kept.old at_hand.old }
{
    if let Some(kept) = kept {
        kept.answer(reply, at_hand);
    }
}

/// The operation of a number, or the thread's end behind the last.
#[inline(always)]
fn operation_at(operations: &Operations, number: usize) -> Op
    ensures { result ≡ slice_index_or operations.now.items number Op.End }
{
    match operations.get(number) {
        Some(op) => op,
        None => Op::End,
    }
}
