// Ticks of the direct form at the edges of the rules. Each case prints one line: the refusal, the slot, the pairs as input>output/pass, the word
// of pass one, and the credits, the queues and the last given outputs afterwards (of more than eight words their sum). `stdout` was worked out by
// hand from the rules.
// Stays (d): the cases are alike since each is one call with its words; what they share is `case`. `Words` is not that of pipelined_test, which shows places.
#![tactic(auto)]

ghost use Rattle.std.specs.Prelude.{◌≤◌};

use direct::tick;
use std::{fmt, io};
use tick_lines::{Answer, clock_at};
use wsgs::{BookRuns, Clock, TurnRuns};

// The words of a run, or of more than eight their sum.
#[derive(Clone, Copy)]
struct Words<'a>(&'a [u32]);

impl fmt::Display for Words<'_> {
    fn fmt<W: fmt::Write>(&self, f: &mut fmt::Formatter<W>) -> fmt::Result {
        let Words(run) = *self;
        if run.len() > 8 {
            let sum = run
                .iter()
                .fold(0u64, |sum, word| sum.wrapping_add(u64::from(*word)));
            return write!(f, " sum {sum}");
        }
        for word in run {
            write!(f, " {word}")?;
        }
        Ok(())
    }
}

// One tick and its line.
fn case(
    rt: &impl Print,
    name: &str,
    before: Clock,
    book: BookRuns<'_>,
    runs: &mut TurnRuns<'_>,
) -> io::Result<()> {
    let answer = Answer {
        before,
        result: tick(before, book, runs),
    };
    print!(rt; "{name}{answer}, credits{}", Words(runs.credits))?;
    print!(rt; ", queues{}", Words(runs.queues))?;
    println!(rt; ", given{}", Words(runs.given))
}

// The slots from 1 on, each with its line.
fn ticks(
    rt: &impl Print,
    name: &str,
    clock: Clock,
    count: u32,
    book: BookRuns<'_>,
    runs: &mut TurnRuns<'_>,
) -> io::Result<()> {
    for slot in 0..count {
        case(rt, name, Clock { slot, ..clock }, book, runs)?;
    }
    Ok(())
}

// One port, booked once, with two packets.
fn one_port(rt: &impl Print, name: &str, ports: u32, frame: u32, slot: u32) -> io::Result<()> {
    case(
        rt,
        name,
        clock_at(ports, frame, slot, 0),
        BookRuns {
            slots: &[1],
            rates: &[0],
        },
        &mut TurnRuns {
            credits: &mut [0],
            queues: &mut [2],
            given: &mut [0],
        },
    )
}

// The limits of ports, frame and clock, and the order of the questions.
fn limits(rt: &impl Print) -> io::Result<()> {
    one_port(rt, "clock at 3999999999", 1, 1, 3999999999)?;
    one_port(rt, "clock at 4000000000", 1, 1, 4000000000)?;
    one_port(rt, "no ports", 0, 1, 0)?;
    one_port(rt, "33 ports", 33, 1, 0)?;
    one_port(rt, "no slots in a frame", 1, 0, 0)?;
    one_port(rt, "10000 slots in a frame", 1, 10000, 0)?;
    one_port(rt, "10001 slots in a frame", 1, 10001, 0)?;
    one_port(rt, "neither ports nor frame", 0, 0, 0)?;
    one_port(rt, "no frame and short runs", 2, 0, 0)?;
    one_port(rt, "short runs at the last slot", 2, 1, 4000000000)
}

// A switch of two ports whose runs have that many words, each 1.
fn short<
    const SLOTS: usize,
    const RATES: usize,
    const CREDITS: usize,
    const QUEUES: usize,
    const GIVEN: usize,
>(rt: &impl Print, name: &str) -> io::Result<()>
    requires slots { SLOTS ≤ 4 }
    requires rates { RATES ≤ 4 }
    requires credits { CREDITS ≤ 4 }
    requires queues { QUEUES ≤ 4 }
    requires given { GIVEN ≤ 2 }
{
    case(
        rt,
        name,
        clock_at(2, 3, 0, 0),
        BookRuns {
            slots: &[1; SLOTS],
            rates: &[1; RATES],
        },
        &mut TurnRuns {
            credits: &mut [1; CREDITS],
            queues: &mut [1; QUEUES],
            given: &mut [1; GIVEN],
        },
    )
}

// Each run in turn short by one word.
fn short_runs(rt: &impl Print) -> io::Result<()> {
    short::<3, 4, 4, 4, 2>(rt, "slots too short")?;
    short::<4, 3, 4, 4, 2>(rt, "rates too short")?;
    short::<4, 4, 3, 4, 2>(rt, "credits too short")?;
    short::<4, 4, 4, 3, 2>(rt, "queues too short")?;
    short::<4, 4, 4, 4, 1>(rt, "given too short")
}

// One word more than is used.
fn word_beyond(rt: &impl Print) -> io::Result<()> {
    case(
        rt,
        "one word beyond",
        clock_at(1, 5, 0, 1),
        BookRuns {
            slots: &[1, 55],
            rates: &[0, 44],
        },
        &mut TurnRuns {
            credits: &mut [0, 66],
            queues: &mut [1, 77],
            given: &mut [0, 88],
        },
    )
}

// Frames of one slot: each begins with the bookings.
fn one_slot_frames(rt: &impl Print) -> io::Result<()> {
    ticks(
        rt,
        "frame of 1",
        clock_at(1, 1, 0, 0),
        4,
        BookRuns {
            slots: &[1],
            rates: &[0],
        },
        &mut TurnRuns {
            credits: &mut [9],
            queues: &mut [3],
            given: &mut [0],
        },
    )
}

// Two ports, three pairs booked once in a frame of three slots, and five packets for each.
fn frame_of_three(rt: &impl Print) -> io::Result<()> {
    ticks(
        rt,
        "frame of 3",
        clock_at(2, 3, 0, 0),
        4,
        BookRuns {
            slots: &[1, 1, 1, 0],
            rates: &[0; 4],
        },
        &mut TurnRuns {
            credits: &mut [0; 4],
            queues: &mut [5, 5, 5, 0],
            given: &mut [0; 2],
        },
    )
}

// The same frame on lines of 1000: pair (1, 1) has three streams of 200, which take two slots, and pair (2, 2) a slot and a stream of 333.
fn frame_by_rates(rt: &impl Print) -> io::Result<()> {
    ticks(
        rt,
        "frame of 3 by rates",
        clock_at(2, 3, 0, 1000),
        4,
        BookRuns {
            slots: &[0, 0, 0, 1],
            rates: &[600, 0, 0, 333],
        },
        &mut TurnRuns {
            credits: &mut [9; 4],
            queues: &mut [3, 1, 0, 5],
            given: &mut [0; 2],
        },
    )
}

// The credits that a frame begins with, of one pair in frames of three slots, without a packet to spend them on.
fn one_rate(rt: &impl Print, name: &str, line: u32, slots: u32, rate: u32) -> io::Result<()> {
    case(
        rt,
        name,
        clock_at(1, 3, 0, line),
        BookRuns {
            slots: &[slots],
            rates: &[rate],
        },
        &mut TurnRuns {
            credits: &mut [9],
            queues: &mut [0],
            given: &mut [0],
        },
    )
}

// Rates just within a slot and just above it, lines whose rate no start accepts or leaves rates without meaning, and bookings up to the largest
// number and past it.
fn loads(rt: &impl Print) -> io::Result<()> {
    one_rate(rt, "rate 333 of 1000", 1000, 0, 333)?;
    one_rate(rt, "rate 334 of 1000", 1000, 0, 334)?;
    one_rate(rt, "two slots and rate 667 of 1000", 1000, 2, 667)?;
    one_rate(rt, "rate 1 of 100000000", 100000000, 0, 1)?;
    one_rate(rt, "two slots and rate 400 of 0", 0, 2, 400)?;
    one_rate(rt, "two slots, half of 200000000", 200000000, 2, 100000000)?;
    one_rate(rt, "the largest rates", 4294967295, 0, 4294967295)?;
    one_rate(rt, "one below the bound", 1, 4294967291, 1)?;
    one_rate(rt, "at the bound", 1, 4294967292, 1)?;
    one_rate(rt, "one above the bound", 1, 4294967293, 1)?;
    one_rate(rt, "far above the bound", 1, 4294967295, 4294967295)
}

// Words that no call left there: credits without bookings, in the middle of a frame.
fn credits_unbooked(rt: &impl Print) -> io::Result<()> {
    case(
        rt,
        "credits without bookings",
        clock_at(2, 10, 5, 0),
        BookRuns {
            slots: &[0; 4],
            rates: &[0; 4],
        },
        &mut TurnRuns {
            credits: &mut [9, 0, 4000000000, 0],
            queues: &mut [1; 4],
            given: &mut [0; 2],
        },
    )
}

// The largest words everywhere, in the middle of a frame, where bookings are not read.
fn largest_words(rt: &impl Print) -> io::Result<()> {
    case(
        rt,
        "the largest words",
        clock_at(2, 10, 5, u32::MAX),
        BookRuns {
            slots: &[u32::MAX; 4],
            rates: &[u32::MAX; 4],
        },
        &mut TurnRuns {
            credits: &mut [u32::MAX; 4],
            queues: &mut [u32::MAX; 4],
            given: &mut [u32::MAX; 2],
        },
    )
}

// Credits that an old frame left, where a new one begins.
fn credits_left(rt: &impl Print) -> io::Result<()> {
    case(
        rt,
        "credits of an old frame",
        clock_at(2, 10, 10, 1000),
        BookRuns {
            slots: &[0; 4],
            rates: &[0; 4],
        },
        &mut TurnRuns {
            credits: &mut [7; 4],
            queues: &mut [1, 0, 0, 1],
            given: &mut [0; 2],
        },
    )
}

// 32 ports, every pair queued, and every pair booked by slots or by rate, or none.
fn full_switch(rt: &impl Print, name: &str, booked: u32, rate: u32) -> io::Result<()> {
    case(
        rt,
        name,
        clock_at(32, 4, 4, 1000),
        BookRuns {
            slots: &[booked; 1024],
            rates: &[rate; 1024],
        },
        &mut TurnRuns {
            credits: &mut [3; 1024],
            queues: &mut [1; 1024],
            given: &mut [0; 32],
        },
    )
}

// An input with packets for both outputs is given them in turn: the next one, and after the last the first.
fn in_turn(rt: &impl Print) -> io::Result<()> {
    ticks(
        rt,
        "in turn",
        clock_at(2, 10, 0, 0),
        3,
        BookRuns {
            slots: &[0; 4],
            rates: &[0; 4],
        },
        &mut TurnRuns {
            credits: &mut [0; 4],
            queues: &mut [3, 3, 0, 0],
            given: &mut [0; 2],
        },
    )
}

// A slot of two ports in the middle of a frame, with the same credit for each pair. Input 2 has a packet for each output, and input 1 so many.
fn one_turn(
    rt: &impl Print,
    name: &str,
    credit: u32,
    queue: u32,
    one: u32,
    two: u32,
) -> io::Result<()> {
    case(
        rt,
        name,
        clock_at(2, 10, 5, 0),
        BookRuns {
            slots: &[0; 4],
            rates: &[0; 4],
        },
        &mut TurnRuns {
            credits: &mut [credit; 4],
            queues: &mut [queue, queue, 1, 1],
            given: &mut [one, two],
        },
    )
}

// In either pass input 1 begins past output 1, and input 2 past output 2. Words past the ports count as 0, and stay where nothing is given.
fn turns(rt: &impl Print) -> io::Result<()> {
    one_turn(rt, "turns of pass one", 1, 1, 1, 2)?;
    one_turn(rt, "turns of pass two", 0, 1, 1, 2)?;
    one_turn(rt, "words past the ports", 0, 0, 3, 4294967295)
}

fn main(rt: HostRuntime) -> io::Result<()> {
    limits(&rt)?;
    short_runs(&rt)?;
    word_beyond(&rt)?;
    one_slot_frames(&rt)?;
    frame_of_three(&rt)?;
    frame_by_rates(&rt)?;
    loads(&rt)?;
    credits_unbooked(&rt)?;
    largest_words(&rt)?;
    credits_left(&rt)?;
    in_turn(&rt)?;
    turns(&rt)?;
    full_switch(&rt, "32 ports, all booked", 1, 0)?;
    full_switch(&rt, "32 ports, none booked", 0, 0)?;
    full_switch(&rt, "32 ports, all booked by rate", 0, 250)
}
