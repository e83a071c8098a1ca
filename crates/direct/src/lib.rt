// The direct form: a tick runs the nine steps for the slot after the last slot run.
#![tactic(auto)]

mod passes;

ghost use Rattle.std.specs.Prelude.{◌≡◌, ◌*◌, ◌≤◌, length};
ghost use Rattle.wsgs.specs.Basics.{pick};
ghost use Rattle.wsgs.specs.Words.{copied};
ghost use Rattle.wsgs.specs.Bookings.{booking_words};
ghost use Rattle.wsgs.specs.Frames.{first_of_frame};
ghost use Rattle.wsgs.specs.Questions.{effect};
ghost use Rattle.wsgs.specs.Answers.{tick_effect};
ghost use Rattle.wsgs.specs.Told.{book_lent, direct_lent, tick_told, SameTurnRuns};
ghost use Rattle.wsgs.specs.Direct;
ghost use Rattle.direct.specs.Passes.{QueuesFit, Loading, SlotRun};

use bookings::copy_bookings;
use passes::{pass_one, pass_two};
use questions::check_direct_tick;
use wsgs::{BookRuns, Clock, Credits, Refused, Served, Ticked, TurnRuns};

// Step 1: in the first slot of a frame the credits become the bookings, which are worked out from slots and rates.
fn reload(clock: Clock, book: BookRuns<'_>, credits: &mut [u32])
    requires loading { Loading clock (book_lent book) credits.old }
    ensures credits_exit { credits.new ≡ pick (first_of_frame clock.frame clock.slot)
        (copied (clock.ports * clock.ports)
        (booking_words clock.frame clock.line book.entry.slots.now book.entry.rates.now) credits.old) credits.old }
{
    if (clock.slot - 1) % clock.frame == 0 {
        let ports = clock.ports as usize;
        let pairs = ports * ports;
        copy_bookings::<Credits>(clock, book, credits, pairs);
    }
}

// The nine steps for the slot that the clock has come to.
fn run_slot(clock: Clock, book: BookRuns<'_>, runs: &mut TurnRuns<'_>) -> Served
    requires loading { Loading clock (book_lent book) runs.old.credits.now }
    requires queues_fit { QueuesFit clock.ports runs.old.queues.now runs.old.given.now }
    ensures loans { SameTurnRuns runs.old runs.new }
    ensures slot_run { SlotRun clock.ports clock.frame clock.line clock.slot (direct_lent book.entry runs.old)
        result.outputs result.first_pass runs.new.credits.now runs.new.queues.now runs.new.given.now }
{
    let ports = clock.ports as usize;
    reload(clock, book, runs.credits);
    let passed = pass_one(ports, runs);
    pass_two(passed, ports, runs.queues, runs.given).served
}

// A tick: the questions, then the slot. The clock goes in and comes back whole.
pub fn tick(clock: Clock, book: BookRuns<'_>, runs: &mut TurnRuns<'_>) -> Result<Ticked, Refused>
    ensures loans { SameTurnRuns runs.old runs.new }
    ensures outcome { effect (tick_told clock result) (direct_lent book.entry runs.new)
        ≡ tick_effect (Direct.tick clock (direct_lent book.entry runs.old)) }
{
    // `&mut *`, though the runs are only read: two fields behind a `&mut` that are lent as `&` at once have no proof in this kit.
    check_direct_tick(
        clock,
        book,
        &mut *runs.credits,
        &mut *runs.queues,
        &mut *runs.given,
    )?;
    let next = Clock {
        slot: clock.slot + 1,
        ..clock
    };
    let served = run_slot(next, book, runs);
    Ok(Ticked {
        clock: next,
        served,
    })
}
