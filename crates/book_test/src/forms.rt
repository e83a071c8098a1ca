// Starts of both forms, on runs with 7 in every word. Each line has the clock afterwards and, of each run, its length, its first word, the last that 32 ports
// use, and the one beyond.
// Stays (d): a start of either form is a function with its own runs, and the sizes and lengths that it is tried on are data.
ghost use Rattle.std.specs.Prelude.{◌≤◌};

use crate::show::{Shown, WordsAt, clock_of_kind, number};
use starts::{start_direct, start_pipelined};
use std::{fmt, io};
use wsgs::BookKind::{Fine, Plain};
use wsgs::{BookKind, Clock, PipelineRuns, Refused, TurnRuns};

// What a start is given: the number of ports, the length of a frame, the rate of a line, and the kind of the book.
#[derive(Clone, Copy)]
struct Sizes(u64, u64, u64, BookKind);

impl fmt::Display for Sizes {
    fn fmt<W: fmt::Write>(&self, f: &mut fmt::Formatter<W>) -> fmt::Result {
        let Sizes(ports, frame, line, kind) = *self;
        write!(f, "{ports} {frame} {line} {}", kind as u8)
    }
}

// Prints what a start was given, and what it answers. A refused one leaves its caller's clock.
fn show_start(
    rt: &impl Print,
    name: &str,
    sizes: Sizes,
    started: Result<Clock, Refused>,
) -> io::Result<()> {
    let clock = started.unwrap_or(clock_of_kind(5, 6, 8, 7));
    print!(rt;
        "{name} {sizes}: refusal {} {}",
        number(started.map(|_| ())),
        Shown(clock)
    )
}

// The places of the first word of a run, of the last that 32 ports use, and of the one beyond.
const OF_PAIRS: [usize; 3] = [0, 1023, 1024];

const OF_PORTS: [usize; 3] = [0, 31, 32];

const OF_ROWS: [usize; 3] = [0, 2047, 2048];

// A run's length, and these words of it.
#[derive(Clone, Copy)]
struct Ends<'a>(&'a [u32], &'a [usize]);

impl fmt::Display for Ends<'_> {
    fn fmt<W: fmt::Write>(&self, f: &mut fmt::Formatter<W>) -> fmt::Result {
        let Ends(run, places) = *self;
        write!(f, "{}:{}", run.len(), WordsAt(run, places))
    }
}

// Prints the runs that both forms have.
fn show_runs(rt: &impl Print, slots: &[u32], rates: &[u32], runs: &TurnRuns<'_>) -> io::Result<()> {
    print!(rt;
        " slots {} rates {}",
        Ends(slots, &OF_PAIRS),
        Ends(rates, &OF_PAIRS)
    )?;
    print!(rt; " credits {}", Ends(runs.credits, &OF_PAIRS))?;
    print!(rt; " queues {}", Ends(runs.queues, &OF_PAIRS))?;
    print!(rt; " given {}", Ends(runs.given, &OF_PORTS))
}

// A start of a direct switch on runs of so many words.
fn direct_on<
    const SLOTS: usize,
    const RATES: usize,
    const CREDITS: usize,
    const QUEUES: usize,
    const GIVEN: usize,
>(rt: &impl Print, sizes: Sizes) -> io::Result<()>
    requires slots { SLOTS ≤ 1025 }
    requires rates { RATES ≤ 1025 }
    requires credits { CREDITS ≤ 1025 }
    requires queues { QUEUES ≤ 1025 }
    requires given { GIVEN ≤ 33 }
{
    let mut slots = [7; SLOTS];
    let mut rates = [7; RATES];
    let mut runs = TurnRuns {
        credits: &mut [7; CREDITS],
        queues: &mut [7; QUEUES],
        given: &mut [7; GIVEN],
    };
    let Sizes(ports, frame, line, kind) = sizes;
    let started = start_direct(ports, frame, line, kind, &mut slots, &mut rates, &mut runs);
    show_start(rt, "direct", sizes, started)?;
    show_runs(rt, &slots, &rates, &runs)?;
    println!(rt; "")
}

fn direct_exact(rt: &impl Print, sizes: Sizes) -> io::Result<()> {
    direct_on::<1024, 1024, 1024, 1024, 32>(rt, sizes)
}

fn direct_longer(rt: &impl Print, sizes: Sizes) -> io::Result<()> {
    direct_on::<1025, 1025, 1025, 1025, 33>(rt, sizes)
}

// One of the five is a word too short.
fn direct_shorter(rt: &impl Print, sizes: Sizes) -> io::Result<()> {
    direct_on::<1023, 1024, 1024, 1024, 32>(rt, sizes)?;
    direct_on::<1024, 1023, 1024, 1024, 32>(rt, sizes)?;
    direct_on::<1024, 1024, 1023, 1024, 32>(rt, sizes)?;
    direct_on::<1024, 1024, 1024, 1023, 32>(rt, sizes)?;
    direct_on::<1024, 1024, 1024, 1024, 31>(rt, sizes)
}

// Sizes at and past their ends, then runs too short, and both; then line rates at and past their end, alone and with the others; then a
// fine book, accepted and refused.
pub fn direct(rt: &impl Print) -> io::Result<()> {
    direct_exact(rt, Sizes(32, 10_000, 0, Plain))?;
    direct_longer(rt, Sizes(32, 10_000, 1_000, Plain))?;
    direct_exact(rt, Sizes(1, 1, 1, Plain))?;
    direct_exact(rt, Sizes(0, 10_000, 0, Plain))?;
    direct_exact(rt, Sizes(33, 10_000, 0, Plain))?;
    direct_exact(rt, Sizes(18_446_744_073_709_551_615, 10_000, 0, Plain))?;
    direct_exact(rt, Sizes(32, 0, 0, Plain))?;
    direct_exact(rt, Sizes(32, 10_001, 0, Plain))?;
    direct_exact(rt, Sizes(32, 18_446_744_073_709_551_615, 0, Plain))?;
    direct_exact(rt, Sizes(33, 10_001, 0, Plain))?;
    direct_shorter(rt, Sizes(32, 10_000, 0, Plain))?;
    direct_shorter(rt, Sizes(33, 10_001, 0, Plain))?;
    direct_exact(rt, Sizes(32, 10_000, 100_000_000, Plain))?;
    direct_exact(rt, Sizes(32, 10_000, 100_000_001, Plain))?;
    direct_exact(rt, Sizes(32, 10_000, 18_446_744_073_709_551_615, Plain))?;
    direct_exact(rt, Sizes(33, 10_000, 100_000_001, Plain))?;
    direct_exact(rt, Sizes(32, 10_001, 100_000_001, Plain))?;
    direct_shorter(rt, Sizes(32, 10_000, 100_000_001, Plain))?;
    direct_longer(rt, Sizes(32, 10_000, 1_000, Fine))?;
    direct_exact(rt, Sizes(32, 0, 0, Fine))
}

// A start of a pipelined switch on runs of so many words.
fn pipelined_on<
    const SLOTS: usize,
    const RATES: usize,
    const CREDITS: usize,
    const QUEUES: usize,
    const GIVEN: usize,
    const COPY: usize,
    const FLIGHT: usize,
>(rt: &impl Print, sizes: Sizes) -> io::Result<()>
    requires slots { SLOTS ≤ 1025 }
    requires rates { RATES ≤ 1025 }
    requires credits { CREDITS ≤ 1025 }
    requires queues { QUEUES ≤ 1025 }
    requires given { GIVEN ≤ 33 }
    requires copy { COPY ≤ 1025 }
    requires flight { FLIGHT ≤ 2049 }
{
    let mut slots = [7; SLOTS];
    let mut rates = [7; RATES];
    let mut runs = TurnRuns {
        credits: &mut [7; CREDITS],
        queues: &mut [7; QUEUES],
        given: &mut [7; GIVEN],
    };
    let mut pipeline = PipelineRuns {
        copy: &mut [7; COPY],
        flight: &mut [7; FLIGHT],
    };
    let Sizes(ports, frame, line, kind) = sizes;
    let started = start_pipelined(
        ports,
        frame,
        line,
        kind,
        &mut slots,
        &mut rates,
        &mut runs,
        &mut pipeline,
    );
    show_start(rt, "pipelined", sizes, started)?;
    show_runs(rt, &slots, &rates, &runs)?;
    print!(rt; " copy {}", Ends(pipeline.copy, &OF_PAIRS))?;
    println!(rt; " flight {}", Ends(pipeline.flight, &OF_ROWS))
}

fn pipelined_exact(rt: &impl Print, sizes: Sizes) -> io::Result<()> {
    pipelined_on::<1024, 1024, 1024, 1024, 32, 1024, 2048>(rt, sizes)
}

fn pipelined_longer(rt: &impl Print, sizes: Sizes) -> io::Result<()> {
    pipelined_on::<1025, 1025, 1025, 1025, 33, 1025, 2049>(rt, sizes)
}

// The slots, then the rates, then the copy are a word too short.
fn pipelined_shorter(rt: &impl Print, sizes: Sizes) -> io::Result<()> {
    pipelined_on::<1023, 1024, 1024, 1024, 32, 1024, 2048>(rt, sizes)?;
    pipelined_on::<1024, 1023, 1024, 1024, 32, 1024, 2048>(rt, sizes)?;
    pipelined_on::<1024, 1024, 1024, 1024, 32, 1023, 2048>(rt, sizes)
}

// The rows in flight are.
fn flight_shorter(rt: &impl Print, sizes: Sizes) -> io::Result<()> {
    pipelined_on::<1024, 1024, 1024, 1024, 32, 1024, 2047>(rt, sizes)
}

// The last given outputs are.
fn given_shorter(rt: &impl Print, sizes: Sizes) -> io::Result<()> {
    pipelined_on::<1024, 1024, 1024, 1024, 31, 1024, 2048>(rt, sizes)
}

// Sizes at and past their ends, then runs too short, and both; then line rates at and past their end, alone and with the others; then a
// fine book, accepted and refused.
pub fn pipelined(rt: &impl Print) -> io::Result<()> {
    pipelined_exact(rt, Sizes(32, 10_000, 0, Plain))?;
    pipelined_longer(rt, Sizes(32, 10_000, 1_000, Plain))?;
    pipelined_exact(rt, Sizes(32, 32, 0, Plain))?;
    pipelined_exact(rt, Sizes(32, 31, 0, Plain))?;
    pipelined_exact(rt, Sizes(33, 10_000, 0, Plain))?;
    pipelined_exact(rt, Sizes(32, 10_001, 0, Plain))?;
    pipelined_exact(rt, Sizes(33, 1, 0, Plain))?;
    pipelined_shorter(rt, Sizes(32, 10_000, 0, Plain))?;
    flight_shorter(rt, Sizes(32, 10_000, 0, Plain))?;
    given_shorter(rt, Sizes(32, 10_000, 0, Plain))?;
    pipelined_shorter(rt, Sizes(32, 31, 0, Plain))?;
    flight_shorter(rt, Sizes(32, 31, 0, Plain))?;
    given_shorter(rt, Sizes(32, 31, 0, Plain))?;
    pipelined_exact(rt, Sizes(32, 10_000, 100_000_000, Plain))?;
    pipelined_exact(rt, Sizes(32, 10_000, 100_000_001, Plain))?;
    pipelined_exact(rt, Sizes(32, 31, 100_000_001, Plain))?;
    flight_shorter(rt, Sizes(32, 10_000, 100_000_001, Plain))?;
    pipelined_longer(rt, Sizes(32, 10_000, 1_000, Fine))?;
    pipelined_exact(rt, Sizes(32, 31, 0, Fine))
}
