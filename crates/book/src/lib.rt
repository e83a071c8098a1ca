// The book and the arrivals of a switch: booking by slots and by rate, release of either, and arrival.
// Stays (a): book, book_rate, release and release_rate are the four that C calls (`kivdrag_book` ..), and each is lent one run to write and the other
// to read. One function for them would ask its callers for both as `&mut`. What they share is `check_operation`.
#![tactic(auto)]

ghost use Rattle.std.specs.Prelude.{◌≡◌};
ghost use Rattle.wsgs.specs.Questions.{effect};
ghost use Rattle.wsgs.specs.Bookings.{book_of};
ghost use Rattle.wsgs.specs.Book.{book_effect, rate_effect, release_effect, release_rate_effect, arrive_effect};
ghost use Rattle.wsgs.specs.Told.{refusal_number};

mod admission;
mod afterwards;
mod all_sums;
mod asked;
pub mod operations;
pub mod pair_sums;
mod pairs;
mod queues;
mod rates;
pub mod refusals;
mod sharing;
mod sums;

use operations::BookOperation;
use pairs::{add_to_word, take_off_word};
use refusals::{check_arrival, check_operation};
use wsgs::{BookRuns, BookedSlots, Clock, Pair, Refused};

// Books slots of each frame for a pair.
pub fn book(
    clock: Clock,
    slots: &mut [u32],
    rates: &[u32],
    pair: Pair,
    amount: BookedSlots,
) -> Result<(), Refused>
    ensures outcome { effect (refusal_number result) (book_of slots.new rates.now)
        ≡ book_effect clock (book_of slots.old rates.now) pair.input.0 pair.output.0 amount.0 }
{
    let held = BookRuns { slots, rates };
    check_operation(clock, held, pair, BookOperation::Book(amount))?;
    add_to_word(clock.ports as usize, slots, pair, amount.0);
    Ok(())
}

// Books a rate, in kbit/s, for a pair. It counts as the slots by which the pair's booking rises.
pub fn book_rate(
    clock: Clock,
    slots: &[u32],
    rates: &mut [u32],
    pair: Pair,
    rate: u64,
) -> Result<(), Refused>
    ensures outcome { effect (refusal_number result) (book_of slots.now rates.new)
        ≡ rate_effect clock (book_of slots.now rates.old) pair.input.0 pair.output.0 rate }
{
    let held = BookRuns { slots, rates };
    check_operation(clock, held, pair, BookOperation::BookRate(rate))?;
    add_to_word(clock.ports as usize, rates, pair, rate);
    Ok(())
}

// Takes booked slots off a pair again.
pub fn release(
    clock: Clock,
    slots: &mut [u32],
    rates: &[u32],
    pair: Pair,
    amount: BookedSlots,
) -> Result<(), Refused>
    ensures outcome { effect (refusal_number result) (book_of slots.new rates.now)
        ≡ release_effect clock (book_of slots.old rates.now) pair.input.0 pair.output.0 amount.0 }
{
    let held = BookRuns { slots, rates };
    check_operation(clock, held, pair, BookOperation::Release(amount))?;
    take_off_word(clock.ports as usize, slots, pair, amount.0);
    Ok(())
}

// Takes a booked rate, in kbit/s, off a pair again.
pub fn release_rate(
    clock: Clock,
    slots: &[u32],
    rates: &mut [u32],
    pair: Pair,
    rate: u64,
) -> Result<(), Refused>
    ensures outcome { effect (refusal_number result) (book_of slots.now rates.new)
        ≡ release_rate_effect clock (book_of slots.now rates.old) pair.input.0 pair.output.0 rate }
{
    let held = BookRuns { slots, rates };
    check_operation(clock, held, pair, BookOperation::ReleaseRate(rate))?;
    take_off_word(clock.ports as usize, rates, pair, rate);
    Ok(())
}

// Adds packets that arrived to a pair's queue.
pub fn arrive(clock: Clock, queues: &mut [u32], pair: Pair, packets: u64) -> Result<(), Refused>
    ensures outcome { effect (refusal_number result) queues.new
        ≡ arrive_effect clock queues.old pair.input.0 pair.output.0 packets }
{
    check_arrival(clock, queues, pair, packets)?;
    add_to_word(clock.ports as usize, queues, pair, packets);
    Ok(())
}
