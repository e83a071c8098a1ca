// The C library (include/kivdrag.h): each export is the call of its name in crates/kivdrag_c, with the same promise, as proofs/Exports.antt shows.
// That crate is the library that other crates stand on; this one is built as the archive that C links.
// Stays (a): the C interface. Each signature is that of include/kivdrag.h, and each contract that of crates/kivdrag_c.
#![tactic(auto)]

ghost use Rattle.std.specs.Prelude.{◌≡◌};
ghost use Rattle.wsgs.specs.Questions.{effect};
ghost use Rattle.wsgs.specs.Clocks.{is_fine};
ghost use Rattle.wsgs.specs.Bookings.{book_of};
ghost use Rattle.wsgs.specs.Answers.{direct_runs_of, pipelined_runs_of};
ghost use Rattle.wsgs.specs.Direct;
ghost use Rattle.wsgs.specs.Pipelined;
ghost use Rattle.wsgs.specs.Headroom.{headroom_result};
ghost use Rattle.wsgs.specs.Preview.{preview, preview_of, slots_booking, rate_booking, slots_release, rate_release};
ghost use Rattle.wsgs.specs.Book.{book_effect, rate_effect, release_effect, release_rate_effect, arrive_effect};
ghost use Rattle.kivdrag_c.specs.Clocks.{clock_in_words};
ghost use Rattle.kivdrag_c.specs.Results.{c_start, c_start_of, c_headroom, c_tick, c_tick_of};

// Starts a direct switch, with a plain book where `fine` is 0, and else with a fine one.
#[unsafe(no_mangle)]
pub extern "C" fn kivdrag_start_direct(
    ports: u64,
    frame: u64,
    line: u64,
    fine: u32,
    clock: &mut [u32; 5],
    slots: &mut [u32],
    rates: &mut [u32],
    credits: &mut [u32],
    queues: &mut [u32],
    given: &mut [u32],
) -> u32
    ensures outcome { c_start result clock.new
        (direct_runs_of slots.new rates.new credits.new queues.new given.new)
        ≡ c_start_of (Direct.start ports frame line (is_fine fine) (clock_in_words clock.old)
        (direct_runs_of slots.old rates.old credits.old queues.old given.old)) }
{
    kivdrag_c::kivdrag_start_direct(
        ports, frame, line, fine, clock, slots, rates, credits, queues, given,
    )
}

// Starts a pipelined switch, with a plain book where `fine` is 0, and else with a fine one.
#[unsafe(no_mangle)]
pub extern "C" fn kivdrag_start_pipelined(
    ports: u64,
    frame: u64,
    line: u64,
    fine: u32,
    clock: &mut [u32; 5],
    slots: &mut [u32],
    rates: &mut [u32],
    credits: &mut [u32],
    queues: &mut [u32],
    given: &mut [u32],
    copy: &mut [u32],
    flight: &mut [u32],
) -> u32
    ensures outcome { c_start result clock.new
        (pipelined_runs_of slots.new rates.new credits.new queues.new
        given.new copy.new flight.new)
        ≡ c_start_of (Pipelined.start ports frame line (is_fine fine) (clock_in_words clock.old)
        (pipelined_runs_of slots.old rates.old credits.old queues.old
        given.old copy.old flight.old)) }
{
    kivdrag_c::kivdrag_start_pipelined(
        ports, frame, line, fine, clock, slots, rates, credits, queues, given, copy, flight,
    )
}

// Books slots of each frame for a pair.
#[unsafe(no_mangle)]
pub extern "C" fn kivdrag_book(
    clock: &[u32; 5],
    slots: &mut [u32],
    rates: &[u32],
    input: u64,
    output: u64,
    amount: u64,
) -> u32
    ensures outcome { effect result (book_of slots.new rates.now)
        ≡ book_effect (clock_in_words clock.now)
        (book_of slots.old rates.now) input output amount }
{
    kivdrag_c::kivdrag_book(clock, slots, rates, input, output, amount)
}

// Books a rate for a pair, in kbit/s.
#[unsafe(no_mangle)]
pub extern "C" fn kivdrag_book_rate(
    clock: &[u32; 5],
    slots: &[u32],
    rates: &mut [u32],
    input: u64,
    output: u64,
    rate: u64,
) -> u32
    ensures outcome { effect result (book_of slots.now rates.new)
        ≡ rate_effect (clock_in_words clock.now)
        (book_of slots.now rates.old) input output rate }
{
    kivdrag_c::kivdrag_book_rate(clock, slots, rates, input, output, rate)
}

// Takes slots that were booked by slots off a pair again.
#[unsafe(no_mangle)]
pub extern "C" fn kivdrag_release(
    clock: &[u32; 5],
    slots: &mut [u32],
    rates: &[u32],
    input: u64,
    output: u64,
    amount: u64,
) -> u32
    ensures outcome { effect result (book_of slots.new rates.now)
        ≡ release_effect (clock_in_words clock.now)
        (book_of slots.old rates.now) input output amount }
{
    kivdrag_c::kivdrag_release(clock, slots, rates, input, output, amount)
}

// Takes a rate off a pair again, in kbit/s.
#[unsafe(no_mangle)]
pub extern "C" fn kivdrag_release_rate(
    clock: &[u32; 5],
    slots: &[u32],
    rates: &mut [u32],
    input: u64,
    output: u64,
    rate: u64,
) -> u32
    ensures outcome { effect result (book_of slots.now rates.new)
        ≡ release_rate_effect (clock_in_words clock.now)
        (book_of slots.now rates.old) input output rate }
{
    kivdrag_c::kivdrag_release_rate(clock, slots, rates, input, output, rate)
}

// Tells how far a pair is from inequality (2) of the paper. The number is written beside a refusal too, as 0.
#[unsafe(no_mangle)]
pub extern "C" fn kivdrag_headroom(
    clock: &[u32; 5],
    slots: &[u32],
    rates: &[u32],
    input: u64,
    output: u64,
    headroom: &mut i64,
) -> u32
    ensures outcome { c_headroom result headroom.new
        ≡ headroom_result (clock_in_words clock.now)
        (book_of slots.now rates.now) input output }
{
    kivdrag_c::kivdrag_headroom(clock, slots, rates, input, output, headroom)
}

// Tells what booking slots would give, and the sums that would follow.
#[unsafe(no_mangle)]
pub extern "C" fn kivdrag_preview_book(
    clock: &[u32; 5],
    slots: &[u32],
    rates: &[u32],
    input: u64,
    output: u64,
    amount: u64,
    row: &mut u64,
    column: &mut u64,
) -> u32
    ensures outcome { preview_of result row.new column.new
        ≡ preview slots_booking (clock_in_words clock.now)
        (book_of slots.now rates.now) input output amount }
{
    kivdrag_c::kivdrag_preview_book(clock, slots, rates, input, output, amount, row, column)
}

// Tells what booking a rate would give.
#[unsafe(no_mangle)]
pub extern "C" fn kivdrag_preview_book_rate(
    clock: &[u32; 5],
    slots: &[u32],
    rates: &[u32],
    input: u64,
    output: u64,
    rate: u64,
    row: &mut u64,
    column: &mut u64,
) -> u32
    ensures outcome { preview_of result row.new column.new
        ≡ preview rate_booking (clock_in_words clock.now)
        (book_of slots.now rates.now) input output rate }
{
    kivdrag_c::kivdrag_preview_book_rate(clock, slots, rates, input, output, rate, row, column)
}

// Tells what a release of slots would give.
#[unsafe(no_mangle)]
pub extern "C" fn kivdrag_preview_release(
    clock: &[u32; 5],
    slots: &[u32],
    rates: &[u32],
    input: u64,
    output: u64,
    amount: u64,
    row: &mut u64,
    column: &mut u64,
) -> u32
    ensures outcome { preview_of result row.new column.new
        ≡ preview slots_release (clock_in_words clock.now)
        (book_of slots.now rates.now) input output amount }
{
    kivdrag_c::kivdrag_preview_release(clock, slots, rates, input, output, amount, row, column)
}

// Tells what a release of a rate would give.
#[unsafe(no_mangle)]
pub extern "C" fn kivdrag_preview_release_rate(
    clock: &[u32; 5],
    slots: &[u32],
    rates: &[u32],
    input: u64,
    output: u64,
    rate: u64,
    row: &mut u64,
    column: &mut u64,
) -> u32
    ensures outcome { preview_of result row.new column.new
        ≡ preview rate_release (clock_in_words clock.now)
        (book_of slots.now rates.now) input output rate }
{
    kivdrag_c::kivdrag_preview_release_rate(clock, slots, rates, input, output, rate, row, column)
}

// Adds packets that arrived to a pair's queue.
#[unsafe(no_mangle)]
pub extern "C" fn kivdrag_arrive(
    clock: &[u32; 5],
    queues: &mut [u32],
    input: u64,
    output: u64,
    packets: u64,
) -> u32
    ensures outcome { effect result queues.new
        ≡ arrive_effect (clock_in_words clock.now) queues.old input output packets }
{
    kivdrag_c::kivdrag_arrive(clock, queues, input, output, packets)
}

// Runs the next slot of a direct switch.
#[unsafe(no_mangle)]
pub extern "C" fn kivdrag_tick_direct(
    clock: &mut [u32; 5],
    slots: &[u32],
    rates: &[u32],
    credits: &mut [u32],
    queues: &mut [u32],
    given: &mut [u32],
    outputs: &mut [u8; 32],
    first_pass: &mut u32,
) -> u32
    ensures outcome { c_tick result clock.new outputs.new first_pass.new
        (direct_runs_of slots.now rates.now credits.new queues.new given.new)
        ≡ c_tick_of (Direct.tick (clock_in_words clock.old)
        (direct_runs_of slots.now rates.now credits.old queues.old given.old)) }
{
    kivdrag_c::kivdrag_tick_direct(
        clock, slots, rates, credits, queues, given, outputs, first_pass,
    )
}

// Runs the next tick of a pipelined switch: every input has its turns for slots ahead, and the pairs of the next slot are handed out.
#[unsafe(no_mangle)]
pub extern "C" fn kivdrag_tick_pipelined(
    clock: &mut [u32; 5],
    slots: &[u32],
    rates: &[u32],
    credits: &mut [u32],
    queues: &mut [u32],
    given: &mut [u32],
    copy: &mut [u32],
    flight: &mut [u32],
    outputs: &mut [u8; 32],
    first_pass: &mut u32,
) -> u32
    ensures outcome { c_tick result clock.new outputs.new first_pass.new
        (pipelined_runs_of slots.now rates.now credits.new queues.new
        given.new copy.new flight.new)
        ≡ c_tick_of (Pipelined.tick (clock_in_words clock.old)
        (pipelined_runs_of slots.now rates.now credits.old queues.old
        given.old copy.old flight.old)) }
{
    kivdrag_c::kivdrag_tick_pipelined(
        clock, slots, rates, credits, queues, given, copy, flight, outputs, first_pass,
    )
}
