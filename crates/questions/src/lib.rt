// The questions that calls share, in their order. The first that is answered no refuses.
#![tactic(auto)]

mod runs;

ghost use Rattle.std.specs.Prelude.{◌≡◌};
ghost use Rattle.wsgs.specs.Basics.{between};
ghost use Rattle.wsgs.specs.Questions.{pair_in_range, holds_pairs, holds_book, holds_ports};
ghost use Rattle.wsgs.specs.Told.{refusal_number, book_lent};
ghost use Rattle.wsgs.specs.Answers.{direct_runs_of, pipelined_runs_of};
ghost use Rattle.wsgs.specs.Direct;
ghost use Rattle.wsgs.specs.Pipelined;
ghost use Rattle.questions.specs.Refusals.{sizes_refusal, line_refusal, clock_refusal, pair_refusal};
ghost use Rattle.questions.specs.Refusals.{direct_runs_refusal, pipelined_runs_refusal};

use runs::{direct_runs_suffice, pipelined_runs_suffice};
use wsgs::{BookRuns, Clock, MAX_FRAME, MAX_LINE_RATE, MAX_PORTS, MAX_SLOT, Pair, Refused};

// Whether a number is one of low to high.
pub fn is_between(low: u64, high: u64, number: u64) -> bool
    ensures result { result ≡ between low high number }
{
    (low..=high).contains(&number)
}

// Whether a run holds the words of all pairs. No run has as many words as a square past 64 bits.
pub fn holds_pairs(ports: u64, run: &[u32]) -> bool
    ensures result { result ≡ holds_pairs ports run.now }
{
    ports
        .checked_mul(ports)
        .is_some_and(|words| words <= run.len() as u64)
}

// Whether both runs of a book do.
pub fn holds_book(ports: u64, book: BookRuns<'_>) -> bool
    ensures result { result ≡ holds_book ports (book_lent book.entry) }
{
    holds_pairs(ports, book.slots) && holds_pairs(ports, book.rates)
}

// Whether a run holds a word for each input.
pub fn holds_ports(ports: u64, run: &[u32]) -> bool
    ensures result { result ≡ holds_ports ports run.now }
{
    ports <= run.len() as u64
}

// Whether input and output are ports: question 5.
fn pair_in_range(ports: u64, pair: Pair) -> bool
    ensures result { result ≡ (pair_in_range ports pair.input.0 pair.output.0).yes }
{
    is_between(1, ports, pair.input.0) && is_between(1, ports, pair.output.0)
}

// The number of ports and the length of a frame: questions 1 and 2.
fn check_sizes(ports: u64, frame: u64) -> Result<(), Refused>
    ensures result { refusal_number result ≡ sizes_refusal ports frame }
{
    if !is_between(1, MAX_PORTS, ports) {
        return Err(Refused::Ports);
    }
    if !is_between(1, MAX_FRAME, frame) {
        return Err(Refused::Frame);
    }
    Ok(())
}

// The rate of a line at a start: question 6.
fn check_line(line: u64) -> Result<(), Refused>
    ensures result { refusal_number result ≡ line_refusal line }
{
    if line > MAX_LINE_RATE {
        return Err(Refused::Amount);
    }
    Ok(())
}

// The clock of a switch that is to run a slot more: question 7.
fn check_clock(clock: Clock) -> Result<(), Refused>
    ensures result { refusal_number result ≡ clock_refusal clock }
{
    if clock.slot >= MAX_SLOT {
        return Err(Refused::Clock);
    }
    Ok(())
}

// A call on a pair, whose runs are long enough or not: questions 1, 2, 4 and 5.
pub fn check_pair(clock: Clock, enough: bool, pair: Pair) -> Result<(), Refused>
    ensures result { refusal_number result ≡ pair_refusal clock enough pair.input.0 pair.output.0 }
{
    check_sizes(clock.ports as u64, clock.frame as u64)?;
    if !enough {
        return Err(Refused::Runs);
    }
    if !pair_in_range(clock.ports as u64, pair) {
        return Err(Refused::Pair);
    }
    Ok(())
}

// The sizes and the runs of a direct switch: questions 1, 2 and 4.
// Stays (a): the runs are only read, so this asks for shared slices, as before: `TurnRuns` and `PipelineRuns` would ask its callers for each as `&mut`.
// (d): one function for both forms would take Options of the frame copy and the rows in flight, ask twice whether they are there, and promise the refusal
// by cases; so each form cites its own definition, in Direct or Pipelined, and a start or a tick of it is this and one question.
fn check_direct_runs(
    ports: u64,
    frame: u64,
    book: BookRuns<'_>,
    credits: &[u32],
    queues: &[u32],
    given: &[u32],
) -> Result<(), Refused>
    ensures result { refusal_number result ≡ direct_runs_refusal ports frame
        (direct_runs_of book.entry.slots.now book.entry.rates.now credits.now queues.now given.now) }
{
    check_sizes(ports, frame)?;
    if !direct_runs_suffice(ports, book, credits, queues, given) {
        return Err(Refused::Runs);
    }
    Ok(())
}

// The start of a direct switch: those, and question 6.
// Stays (a), (d): as check_direct_runs; and ports, frame and line are the words of one call, read here and nowhere kept.
pub fn check_direct_start(
    ports: u64,
    frame: u64,
    line: u64,
    book: BookRuns<'_>,
    credits: &[u32],
    queues: &[u32],
    given: &[u32],
) -> Result<(), Refused>
    ensures result { refusal_number result ≡ Direct.start_refusal ports frame line
        (direct_runs_of book.entry.slots.now book.entry.rates.now credits.now queues.now given.now) }
{
    check_direct_runs(ports, frame, book, credits, queues, given)?;
    check_line(line)
}

// A tick of a direct switch: questions 1, 2, 4 and 7.
// Stays (a), (d): as check_direct_runs.
pub fn check_direct_tick(
    clock: Clock,
    book: BookRuns<'_>,
    credits: &[u32],
    queues: &[u32],
    given: &[u32],
) -> Result<(), Refused>
    ensures result { refusal_number result ≡ Direct.tick_refusal clock
        (direct_runs_of book.entry.slots.now book.entry.rates.now credits.now queues.now given.now) }
{
    let ports = clock.ports as u64;
    let length = clock.frame as u64;
    check_direct_runs(ports, length, book, credits, queues, given)?;
    check_clock(clock)
}

// The sizes and the runs of a pipelined switch: questions 1 to 4.
// Stays (a), (d): as check_direct_runs.
fn check_pipelined_runs(
    ports: u64,
    frame: u64,
    book: BookRuns<'_>,
    credits: &[u32],
    queues: &[u32],
    given: &[u32],
    copy: &[u32],
    flight: &[u32],
) -> Result<(), Refused>
    ensures result { refusal_number result ≡ pipelined_runs_refusal ports frame
        (pipelined_runs_of book.entry.slots.now book.entry.rates.now credits.now queues.now
        given.now copy.now flight.now) }
{
    check_sizes(ports, frame)?;
    if frame < ports {
        return Err(Refused::ShortFrame);
    }
    if !pipelined_runs_suffice(ports, book, credits, queues, given, copy, flight) {
        return Err(Refused::Runs);
    }
    Ok(())
}

// The start of a pipelined switch: those, and question 6.
// Stays (a), (d): as check_direct_start.
pub fn check_pipelined_start(
    ports: u64,
    frame: u64,
    line: u64,
    book: BookRuns<'_>,
    credits: &[u32],
    queues: &[u32],
    given: &[u32],
    copy: &[u32],
    flight: &[u32],
) -> Result<(), Refused>
    ensures result { refusal_number result ≡ Pipelined.start_refusal ports frame line
        (pipelined_runs_of book.entry.slots.now book.entry.rates.now credits.now queues.now
        given.now copy.now flight.now) }
{
    check_pipelined_runs(ports, frame, book, credits, queues, given, copy, flight)?;
    check_line(line)
}

// A tick of a pipelined switch: questions 1 to 4 and 7.
// Stays (a), (d): as check_direct_runs.
pub fn check_pipelined_tick(
    clock: Clock,
    book: BookRuns<'_>,
    credits: &[u32],
    queues: &[u32],
    given: &[u32],
    copy: &[u32],
    flight: &[u32],
) -> Result<(), Refused>
    ensures result { refusal_number result ≡ Pipelined.tick_refusal clock
        (pipelined_runs_of book.entry.slots.now book.entry.rates.now credits.now queues.now
        given.now copy.now flight.now) }
{
    check_pipelined_runs(
        clock.ports as u64,
        clock.frame as u64,
        book,
        credits,
        queues,
        given,
        copy,
        flight,
    )?;
    check_clock(clock)
}
