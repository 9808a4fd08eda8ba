//! What a run carries from round to round, beside its space and its actors.
ghost use Rattle.std.specs.Prelude.{◌≡◌};
ghost use Rattle.lxr_run_loop.specs.Courses.{opening_course};

use crate::order::Order;
use crate::teller::Teller;
use lxr_run_history::Totals;
use lxr_words::Options;
use std::alloc::Global;
use std::mem;

/// How far a run has come.
#[derive(Drop)]
pub struct Course {
    /// Where the generator of a replay has come to; none where threads run as they come.
    pub generator: Option<u64>,
    /// How many names the lists of all reports have had so far.
    pub totals: Totals,
    /// In which order its calls and pauses have stood so far.
    pub order: Order,
}

impl Course {
    /// The course of a run that begins.
    pub fn begin(alloc: Global, options: Options) -> Course
        ensures { result ≡ opening_course options }
    {
        Course {
            generator: options.replay,
            totals: Totals::none(),
            order: Order::begin(alloc, options.command),
        }
    }

    /// What tells of the next round, with the order of this course.
    pub(crate) fn take_teller(&mut self, options: Options) -> Teller
        ensures options { result.options ≡ options }
        ensures totals { result.totals ≡ self.old.totals }
        ensures order { result.order ≡ self.old.order }
        ensures generator { self.new.generator ≡ self.old.generator }
    {
        Teller {
            options,
            totals: self.totals,
            order: mem::replace(&mut self.order, Order::none()),
            placed: [0; 255],
        }
    }

    /// Goes on from what has told of it.
    pub(crate) fn put_teller(&mut self, teller: Teller)
        ensures { self.new ≡ record self.old { totals = teller.totals; order = teller.order } }
    {
        self.totals = teller.totals;
        self.order = teller.order;
    }
}
