// The sums beside a preview's outcome: where they are shown, and what they are with the booking that the pair would have.
ghost use Rattle.std.specs.Prelude.{◌≡◌, ◌+◌, ◌-◌, ◌^◌, ◌≤◌, ◌<◌};
ghost use Rattle.wsgs.specs.Preview.{preview_of, refused_by_rule};
ghost use Rattle.wsgs.specs.Told.{number, refusal_number, preview_told};
ghost use Rattle.previews.specs.Shown.{shows_sums, AmountFits, booking_after};

use book::operations::BookOperation;
use book::pair_sums::PairSums;
use bookings::{booking, rise};
use wsgs::{BookedSlots, Clock, Previewed, Refused};

// Whether the sums are shown beside an outcome: where the operation is accepted, and where the book's rule refuses it.
pub fn shows_sums(outcome: Result<(), Refused>) -> bool
    ensures result { result ≡ shows_sums (refusal_number outcome) }
{
    match outcome {
        Ok(()) => true,
        Err(refused) => is_of_rule(refused),
    }
}

// Whether a refusal is one of the book's rule.
fn is_of_rule(refused: Refused) -> bool
    ensures result { result ≡ refused_by_rule (number refused) }
{
    matches!(refused, Refused::Row | Refused::Column | Refused::Sharing)
}

// An outcome without sums.
// Stays (d): this is the constructor for it; a `From` of every outcome would say that none has sums.
pub fn without_sums(outcome: Result<(), Refused>) -> Previewed
    ensures result { preview_told result ≡ preview_of (refusal_number outcome) 0 0 }
{
    Previewed {
        outcome,
        row: 0,
        column: 0,
    }
}

// The booking that the pair would have: its present one with what a booking counts as, or the one that a release leaves.
// Stays (d): the operation comes as data, and each arm works on its own amount and word; closures would be made by such a match too.
pub fn booking_after(clock: Clock, present: PairSums, operation: BookOperation) -> u64
    requires amount_fits { AmountFits operation present }
    requires present_fits { present.booking < 2 ^ 38 }
    ensures result { result ≡ booking_after operation clock present }
    ensures fits { result < 2 ^ 39 }
{
    let held = BookedSlots::from(present.slots);
    match operation {
        BookOperation::Book(amount) => present.booking + amount.0,
        BookOperation::BookRate(rate) => {
            present.booking + rise(clock, held, present.rate, rate as u32).0
        }
        BookOperation::Release(amount) => {
            booking(clock, BookedSlots(held.0 - amount.0), present.rate).0
        }
        BookOperation::ReleaseRate(rate) => booking(clock, held, present.rate - rate as u32).0,
    }
}

// An outcome with the sums of the pair's row and column, in which the pair has another booking than its present one.
// Stays (d): this is the constructor for it, from three values; no field is copied as it is but the outcome.
pub fn with_booking(present: PairSums, outcome: Result<(), Refused>, booking: u64) -> Previewed
    requires own_in_row { present.booking ≤ present.row }
    requires own_in_column { present.booking ≤ present.column }
    requires row_fits { present.row < 2 ^ 38 }
    requires column_fits { present.column < 2 ^ 38 }
    requires booking_fits { booking < 2 ^ 39 }
    ensures result { preview_told result ≡ preview_of (refusal_number outcome)
        (present.row - present.booking + booking)
        (present.column - present.booking + booking) }
{
    Previewed {
        outcome,
        row: present.row - present.booking + booking,
        column: present.column - present.booking + booking,
    }
}
