// What the book has room for, and what an operation on it would give: headroom of a pair, and a preview of each operation. Nothing is changed.
// Stays (a): the four previews are those that C calls (`kivdrag_preview_book` ..), each one line over `preview_operation`; clock, book and pair come
// apart, as C lends them, and are one `AskedPair` once they are asked.
#![tactic(auto)]

ghost use Rattle.std.specs.Prelude.{◌≡◌};
ghost use Rattle.wsgs.specs.Headroom.{headroom_result};
ghost use Rattle.wsgs.specs.Preview.{preview, slots_booking, rate_booking, slots_release, rate_release};
ghost use Rattle.wsgs.specs.Told.{book_lent, headroom_told, preview_told};
ghost use Rattle.book.specs.Operations.{operation_told, amount_told};

mod headrooms;
mod sums;

use book::operations::BookOperation;
use book::pair_sums::pair_sums;
use book::refusals::check_operation;
use headrooms::difference;
use sums::{booking_after, shows_sums, with_booking, without_sums};
use wsgs::{BookRuns, BookedSlots, Clock, Pair, Previewed, Refused};

// How far a pair is from inequality (2) of the paper: F less the bookings of its row and its column, its own counted once.
pub fn headroom(clock: Clock, book: BookRuns<'_>, pair: Pair) -> Result<i64, Refused>
    ensures result { headroom_told result
        ≡ headroom_result clock (book_lent book.entry) pair.input.0 pair.output.0 }
{
    let present = pair_sums(clock, book, pair)?;
    let own = present.booking;
    let taken = present.row + present.column - own;
    Ok(difference(clock.frame as u64, taken))
}

// What booking slots for a pair would give, and the sums that would follow.
pub fn preview_book(clock: Clock, book: BookRuns<'_>, pair: Pair, amount: BookedSlots) -> Previewed
    ensures result { preview_told result ≡ preview slots_booking clock
        (book_lent book.entry) pair.input.0 pair.output.0 amount.0 }
{
    preview_operation(clock, book, pair, BookOperation::Book(amount))
}

// What booking a rate would give.
pub fn preview_book_rate(clock: Clock, book: BookRuns<'_>, pair: Pair, rate: u64) -> Previewed
    ensures result { preview_told result ≡ preview rate_booking clock
        (book_lent book.entry) pair.input.0 pair.output.0 rate }
{
    preview_operation(clock, book, pair, BookOperation::BookRate(rate))
}

// What a release of slots would give.
pub fn preview_release(
    clock: Clock,
    book: BookRuns<'_>,
    pair: Pair,
    amount: BookedSlots,
) -> Previewed
    ensures result { preview_told result ≡ preview slots_release clock
        (book_lent book.entry) pair.input.0 pair.output.0 amount.0 }
{
    preview_operation(clock, book, pair, BookOperation::Release(amount))
}

// What a release of a rate would give.
pub fn preview_release_rate(clock: Clock, book: BookRuns<'_>, pair: Pair, rate: u64) -> Previewed
    ensures result { preview_told result ≡ preview rate_release clock
        (book_lent book.entry) pair.input.0 pair.output.0 rate }
{
    preview_operation(clock, book, pair, BookOperation::ReleaseRate(rate))
}

// What an operation would give. Where its sums are shown the pair has passed its questions, so the present sums are there.
// Inlined, as `check_operation`: each caller names its operation.
#[inline(always)]
fn preview_operation(
    clock: Clock,
    book: BookRuns<'_>,
    pair: Pair,
    operation: BookOperation,
) -> Previewed
    ensures result { preview_told result ≡ preview (operation_told operation) clock
        (book_lent book.entry) pair.input.0 pair.output.0 (amount_told operation) }
{
    let outcome = check_operation(clock, book, pair, operation);
    if !shows_sums(outcome) {
        return without_sums(outcome);
    }
    let present = pair_sums(clock, book, pair).unwrap();
    let booking = booking_after(clock, present, operation);
    with_booking(present, outcome, booking)
}
