// A pair of a book that a call may read: questions 1, 2, 4 and 5 have passed it.
ghost use Rattle.wsgs.specs.Claims.{Reached};
ghost use Rattle.wsgs.specs.Questions.{holds_book};
ghost use Rattle.wsgs.specs.Told.{book_lent};

use wsgs::{BookRuns, Clock, Pair};

// The pair, with the clock and the runs that it was asked for.
#[derive(Clone, Copy)]
pub struct AskedPair<'a> {
    pub clock: Clock,
    pub runs: BookRuns<'a>,
    pub pair: Pair,
    ghost reached: { Reached clock (holds_book clock.ports (book_lent runs)) pair.input.0 pair.output.0 },
}
