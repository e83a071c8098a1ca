// Why each operation is refused, if it is. An operation on the book and its preview ask here.
// Stays (d): `AskedPair` is clock, runs and pair in one, once they are asked; before that the public calls have them apart, as C lends them.
ghost use Rattle.std.specs.Prelude.{◌≡◌, IsTrue};
ghost use Rattle.wsgs.specs.Questions.{holds_book};
ghost use Rattle.wsgs.specs.Book.{arrive_refusal};
ghost use Rattle.wsgs.specs.Told.{refusal_number, book_lent};
ghost use Rattle.questions.specs.Refusals.{pair_refusal};
ghost use Rattle.book.specs.Operations.{amount_asked, last_refusal, operation_refusal};

use crate::admission::check_held;
use crate::afterwards::BookingRequest;
use crate::asked::AskedPair;
use crate::operations::BookOperation;
use crate::queues::check_queue;
use crate::rates::rate_in_range;
use questions::{check_pair, holds_book, holds_pairs, is_between};
use wsgs::{BookRuns, Clock, MAX_ARRIVAL, Pair, Refused};

// Of a call on a pair of the book: questions 1, 2, 4 and 5.
pub fn check_book_pair(clock: Clock, book: BookRuns<'_>, pair: Pair) -> Result<(), Refused>
    ensures refusal { refusal_number result
        ≡ pair_refusal clock (holds_book clock.ports (book_lent book.entry)) pair.input.0 pair.output.0 }
{
    check_pair(clock, holds_book(clock.ports as u64, book), pair)
}

// Of an operation: those, whether its amount is in range, and what it is asked last.
// Inlined, with what it asks, since each caller names its operation: the matches fold.
#[inline(always)]
pub fn check_operation(
    clock: Clock,
    book: BookRuns<'_>,
    pair: Pair,
    operation: BookOperation,
) -> Result<(), Refused>
    ensures refusal { refusal_number result
        ≡ operation_refusal operation clock (book_lent book.entry) pair.input.0 pair.output.0 }
{
    check_book_pair(clock, book, pair)?;
    if !amount_in_range(clock, operation) {
        return Err(Refused::Amount);
    }
    let asked = AskedPair {
        clock,
        runs: book,
        pair,
    };
    asked.check_last(operation)
}

// Whether the amount is in range: question 6.
// Stays (d): two kinds of amount have two ranges, and each arm is one test of its own amount; closures would hide which.
#[inline(always)]
fn amount_in_range(clock: Clock, operation: BookOperation) -> bool
    ensures result { result ≡ (amount_asked operation clock).yes }
{
    match operation {
        BookOperation::Book(amount) | BookOperation::Release(amount) => {
            is_between(1, clock.frame as u64, amount.0)
        }
        BookOperation::BookRate(rate) | BookOperation::ReleaseRate(rate) => {
            rate_in_range(clock.line as u64, rate)
        }
    }
}

impl AskedPair<'_> {
    // Of a booking, by the slots that it counts as, what the book's rule asks; of a release, whether as much is held.
    // Stays (d): the operation comes as data, and each arm is one call on its own amount and run; closures would be made by such a match too.
    #[inline(always)]
    fn check_last(self, operation: BookOperation) -> Result<(), Refused>
        requires amount_in_range { IsTrue (amount_asked operation self.clock).yes }
        ensures refusal { refusal_number result
            ≡ last_refusal operation self.entry.clock (book_lent self.entry.runs)
            self.entry.pair.input.0 self.entry.pair.output.0 }
    {
        let ports = self.clock.ports as usize;
        match operation {
            BookOperation::Book(amount) => BookingRequest {
                asked: self,
                more: amount,
            }
            .check_rule(),
            BookOperation::BookRate(rate) => {
                let more = self.rise(rate as u32);
                BookingRequest { asked: self, more }.check_rule()
            }
            BookOperation::Release(amount) => check_held(
                ports,
                self.runs.slots,
                self.pair,
                amount.0,
            ),
            BookOperation::ReleaseRate(rate) => check_held(ports, self.runs.rates, self.pair, rate),
        }
    }
}

// Of an arrival.
pub fn check_arrival(clock: Clock, queues: &[u32], pair: Pair, packets: u64) -> Result<(), Refused>
    ensures refusal { refusal_number result
        ≡ arrive_refusal clock queues.now pair.input.0 pair.output.0 packets }
{
    check_pair(clock, holds_pairs(clock.ports as u64, queues), pair)?;
    if !is_between(1, MAX_ARRIVAL, packets) {
        return Err(Refused::Amount);
    }
    check_queue(clock.ports as usize, queues, pair, packets)
}
