// The calls of a switch as C has them (include/kivdrag.h). Each is the proved call of its name, on a clock that is lent as five words.
// crates/kivdrag_c_c exports them to C.
// Stays (a): the C interface. Each signature here is that of include/kivdrag.h, and proofs/Exports.antt of crates/kivdrag_c_c has each contract equal to that
// of the export: so numbers for refusals and for the kind of the book, a pair as two numbers, runs as slices of their own, and a function for each call.
#![tactic(auto)]

ghost use Rattle.std.specs.Prelude.{◌≡◌};
ghost use Rattle.wsgs.specs.Questions.{effect};
ghost use Rattle.wsgs.specs.Clocks.{is_fine};
ghost use Rattle.wsgs.specs.Bookings.{book_of};
ghost use Rattle.wsgs.specs.Answers.{direct_runs_of, pipelined_runs_of};
ghost use Rattle.wsgs.specs.Direct;
ghost use Rattle.wsgs.specs.Pipelined;
ghost use Rattle.wsgs.specs.Headroom.{headroom_result};
ghost use Rattle.wsgs.specs.Preview.{preview, preview_of, slots_booking, rate_booking, slots_release, rate_release};
ghost use Rattle.wsgs.specs.Book.{book_effect, rate_effect, release_effect, release_rate_effect, arrive_effect};
ghost use Rattle.kivdrag_c.specs.Clocks.{clock_in_words};
ghost use Rattle.kivdrag_c.specs.Results.{c_start, c_start_of, c_headroom, c_tick, c_tick_of};

mod clocks;
mod results;

use clocks::clock_in;
use results::{
    book_runs, kind_of, number_of, pair_of, put_headroom, put_preview, put_start, put_tick,
};
use wsgs::{BookedSlots, PipelineRuns, TurnRuns};

// Starts a direct switch, with a plain book where `fine` is 0, and else with a fine one.
pub fn kivdrag_start_direct(
    ports: u64,
    frame: u64,
    line: u64,
    fine: u32,
    clock: &mut [u32; 5],
    slots: &mut [u32],
    rates: &mut [u32],
    credits: &mut [u32],
    queues: &mut [u32],
    given: &mut [u32],
) -> u32
    ensures outcome { c_start result clock.new
        (direct_runs_of slots.new rates.new credits.new queues.new given.new)
        ≡ c_start_of (Direct.start ports frame line (is_fine fine) (clock_in_words clock.old)
        (direct_runs_of slots.old rates.old credits.old queues.old given.old)) }
{
    let mut runs = TurnRuns {
        credits,
        queues,
        given,
    };
    let kind = kind_of(fine);
    let started = starts::start_direct(ports, frame, line, kind, slots, rates, &mut runs);
    put_start(started, clock)
}

// Starts a pipelined switch, with a plain book where `fine` is 0, and else with a fine one.
pub fn kivdrag_start_pipelined(
    ports: u64,
    frame: u64,
    line: u64,
    fine: u32,
    clock: &mut [u32; 5],
    slots: &mut [u32],
    rates: &mut [u32],
    credits: &mut [u32],
    queues: &mut [u32],
    given: &mut [u32],
    copy: &mut [u32],
    flight: &mut [u32],
) -> u32
    ensures outcome { c_start result clock.new
        (pipelined_runs_of slots.new rates.new credits.new queues.new
        given.new copy.new flight.new)
        ≡ c_start_of (Pipelined.start ports frame line (is_fine fine) (clock_in_words clock.old)
        (pipelined_runs_of slots.old rates.old credits.old queues.old
        given.old copy.old flight.old)) }
{
    let mut runs = TurnRuns {
        credits,
        queues,
        given,
    };
    let mut rows = PipelineRuns { copy, flight };
    let begun = starts::start_pipelined(
        ports,
        frame,
        line,
        kind_of(fine),
        slots,
        rates,
        &mut runs,
        &mut rows,
    );
    put_start(begun, clock)
}

// Books slots of each frame for a pair.
pub fn kivdrag_book(
    clock: &[u32; 5],
    slots: &mut [u32],
    rates: &[u32],
    input: u64,
    output: u64,
    amount: u64,
) -> u32
    ensures outcome { effect result (book_of slots.new rates.now)
        ≡ book_effect (clock_in_words clock.now)
        (book_of slots.old rates.now) input output amount }
{
    let clock = clock_in(clock);
    let amount = BookedSlots(amount);
    number_of(book::book(clock, slots, rates, pair_of(input, output), amount))
}

// Books a rate for a pair, in kbit/s.
pub fn kivdrag_book_rate(
    clock: &[u32; 5],
    slots: &[u32],
    rates: &mut [u32],
    input: u64,
    output: u64,
    rate: u64,
) -> u32
    ensures outcome { effect result (book_of slots.now rates.new)
        ≡ rate_effect (clock_in_words clock.now)
        (book_of slots.now rates.old) input output rate }
{
    let clock = clock_in(clock);
    number_of(book::book_rate(clock, slots, rates, pair_of(input, output), rate))
}

// Takes slots that were booked by slots off a pair again.
pub fn kivdrag_release(
    clock: &[u32; 5],
    slots: &mut [u32],
    rates: &[u32],
    input: u64,
    output: u64,
    amount: u64,
) -> u32
    ensures outcome { effect result (book_of slots.new rates.now)
        ≡ release_effect (clock_in_words clock.now)
        (book_of slots.old rates.now) input output amount }
{
    let clock = clock_in(clock);
    let amount = BookedSlots(amount);
    number_of(book::release(clock, slots, rates, pair_of(input, output), amount))
}

// Takes a rate off a pair again, in kbit/s.
pub fn kivdrag_release_rate(
    clock: &[u32; 5],
    slots: &[u32],
    rates: &mut [u32],
    input: u64,
    output: u64,
    rate: u64,
) -> u32
    ensures outcome { effect result (book_of slots.now rates.new)
        ≡ release_rate_effect (clock_in_words clock.now)
        (book_of slots.now rates.old) input output rate }
{
    let clock = clock_in(clock);
    number_of(book::release_rate(clock, slots, rates, pair_of(input, output), rate))
}

// Tells how far a pair is from inequality (2) of the paper. The number is written beside a refusal too, as 0.
pub fn kivdrag_headroom(
    clock: &[u32; 5],
    slots: &[u32],
    rates: &[u32],
    input: u64,
    output: u64,
    headroom: &mut i64,
) -> u32
    ensures outcome { c_headroom result headroom.new
        ≡ headroom_result (clock_in_words clock.now)
        (book_of slots.now rates.now) input output }
{
    let clock = clock_in(clock);
    let book = book_runs(slots, rates);
    let told = previews::headroom(clock, book, pair_of(input, output));
    put_headroom(told, headroom)
}

// Tells what booking slots would give, and the sums that would follow.
pub fn kivdrag_preview_book(
    clock: &[u32; 5],
    slots: &[u32],
    rates: &[u32],
    input: u64,
    output: u64,
    amount: u64,
    row: &mut u64,
    column: &mut u64,
) -> u32
    ensures outcome { preview_of result row.new column.new
        ≡ preview slots_booking (clock_in_words clock.now)
        (book_of slots.now rates.now) input output amount }
{
    let clock = clock_in(clock);
    let book = book_runs(slots, rates);
    let amount = BookedSlots(amount);
    let told = previews::preview_book(clock, book, pair_of(input, output), amount);
    put_preview(told, row, column)
}

// Tells what booking a rate would give.
pub fn kivdrag_preview_book_rate(
    clock: &[u32; 5],
    slots: &[u32],
    rates: &[u32],
    input: u64,
    output: u64,
    rate: u64,
    row: &mut u64,
    column: &mut u64,
) -> u32
    ensures outcome { preview_of result row.new column.new
        ≡ preview rate_booking (clock_in_words clock.now)
        (book_of slots.now rates.now) input output rate }
{
    let clock = clock_in(clock);
    let book = book_runs(slots, rates);
    let told = previews::preview_book_rate(clock, book, pair_of(input, output), rate);
    put_preview(told, row, column)
}

// Tells what a release of slots would give.
pub fn kivdrag_preview_release(
    clock: &[u32; 5],
    slots: &[u32],
    rates: &[u32],
    input: u64,
    output: u64,
    amount: u64,
    row: &mut u64,
    column: &mut u64,
) -> u32
    ensures outcome { preview_of result row.new column.new
        ≡ preview slots_release (clock_in_words clock.now)
        (book_of slots.now rates.now) input output amount }
{
    let clock = clock_in(clock);
    let book = book_runs(slots, rates);
    let amount = BookedSlots(amount);
    let told = previews::preview_release(clock, book, pair_of(input, output), amount);
    put_preview(told, row, column)
}

// Tells what a release of a rate would give.
pub fn kivdrag_preview_release_rate(
    clock: &[u32; 5],
    slots: &[u32],
    rates: &[u32],
    input: u64,
    output: u64,
    rate: u64,
    row: &mut u64,
    column: &mut u64,
) -> u32
    ensures outcome { preview_of result row.new column.new
        ≡ preview rate_release (clock_in_words clock.now)
        (book_of slots.now rates.now) input output rate }
{
    let clock = clock_in(clock);
    let book = book_runs(slots, rates);
    let told = previews::preview_release_rate(clock, book, pair_of(input, output), rate);
    put_preview(told, row, column)
}

// Adds packets that arrived to a pair's queue.
pub fn kivdrag_arrive(
    clock: &[u32; 5],
    queues: &mut [u32],
    input: u64,
    output: u64,
    packets: u64,
) -> u32
    ensures outcome { effect result queues.new
        ≡ arrive_effect (clock_in_words clock.now) queues.old input output packets }
{
    let clock = clock_in(clock);
    number_of(book::arrive(clock, queues, pair_of(input, output), packets))
}

// Runs the next slot of a direct switch.
pub fn kivdrag_tick_direct(
    clock: &mut [u32; 5],
    slots: &[u32],
    rates: &[u32],
    credits: &mut [u32],
    queues: &mut [u32],
    given: &mut [u32],
    outputs: &mut [u8; 32],
    first_pass: &mut u32,
) -> u32
    ensures outcome { c_tick result clock.new outputs.new first_pass.new
        (direct_runs_of slots.now rates.now credits.new queues.new given.new)
        ≡ c_tick_of (Direct.tick (clock_in_words clock.old)
        (direct_runs_of slots.now rates.now credits.old queues.old given.old)) }
{
    let at = clock_in(clock);
    let book = book_runs(slots, rates);
    let mut runs = TurnRuns {
        credits,
        queues,
        given,
    };
    let answered = clock::step_direct(at, book, &mut runs);
    put_tick(answered, clock, outputs, first_pass)
}

// Runs the next tick of a pipelined switch: every input has its turns for slots ahead, and the pairs of the next slot are handed out.
pub fn kivdrag_tick_pipelined(
    clock: &mut [u32; 5],
    slots: &[u32],
    rates: &[u32],
    credits: &mut [u32],
    queues: &mut [u32],
    given: &mut [u32],
    copy: &mut [u32],
    flight: &mut [u32],
    outputs: &mut [u8; 32],
    first_pass: &mut u32,
) -> u32
    ensures outcome { c_tick result clock.new outputs.new first_pass.new
        (pipelined_runs_of slots.now rates.now credits.new queues.new
        given.new copy.new flight.new)
        ≡ c_tick_of (Pipelined.tick (clock_in_words clock.old)
        (pipelined_runs_of slots.now rates.now credits.old queues.old
        given.old copy.old flight.old)) }
{
    let before = clock_in(clock);
    let mut pipeline = PipelineRuns { copy, flight };
    let book = book_runs(slots, rates);
    let mut runs = TurnRuns {
        credits,
        queues,
        given,
    };
    let ticked = clock::step_pipelined(before, book, &mut runs, &mut pipeline);
    put_tick(ticked, clock, outputs, first_pass)
}
