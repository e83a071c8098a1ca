// Ticks of the pipelined form at the edges of the rules. Each case prints one line: the refusal, the last slot run, the pairs handed out as
// input>output/pass, the word of pass one, and of each run afterwards the words that are not 0, as place=word with places from 0 (of more than
// 20 words their sum). `stdout` was worked out by hand from the rules.
// Stays (d): the cases are alike since each is one call with its words; what they share is `case`. `Words` is not that of direct_test, which shows no places.
#![tactic(auto)]

ghost use Rattle.std.specs.Prelude.{◌≤◌};

use pipelined::tick;
use std::{fmt, io};
use tick_lines::{Answer, clock_at};
use wsgs::{BookRuns, Clock, PipelineRuns, TurnRuns};

// The words of a run that are not 0 with their places, or of more than 20 words their sum.
#[derive(Clone, Copy)]
struct Words<'a>(&'a [u32]);

impl fmt::Display for Words<'_> {
    fn fmt<W: fmt::Write>(&self, f: &mut fmt::Formatter<W>) -> fmt::Result {
        let Words(run) = *self;
        if run.len() > 20 {
            let sum = run
                .iter()
                .fold(0u64, |sum, word| sum.wrapping_add(u64::from(*word)));
            return write!(f, " sum {sum}");
        }
        for (place, word) in run.iter().enumerate() {
            if *word > 0 {
                write!(f, " {place}={word}")?;
            }
        }
        Ok(())
    }
}

// One tick and its line.
fn case(
    rt: &impl Print,
    name: &str,
    before: Clock,
    book: BookRuns<'_>,
    runs: &mut TurnRuns<'_>,
    pipeline: &mut PipelineRuns<'_>,
) -> io::Result<()> {
    let answer = Answer {
        before,
        result: tick(before, book, runs, pipeline),
    };
    print!(rt;
        "{name}, after slot {}{answer}, credits{}",
        before.slot,
        Words(runs.credits)
    )?;
    print!(rt; ", queues{}", Words(runs.queues))?;
    print!(rt; ", given{}", Words(runs.given))?;
    print!(rt; ", copy{}", Words(pipeline.copy))?;
    println!(rt; ", flight{}", Words(pipeline.flight))
}

// Ticks of one switch, after the slots from the clock's up to another.
fn cases(
    rt: &impl Print,
    name: &str,
    clock: Clock,
    to: u32,
    book: BookRuns<'_>,
    runs: &mut TurnRuns<'_>,
    pipeline: &mut PipelineRuns<'_>,
) -> io::Result<()> {
    for slot in clock.slot..to {
        case(rt, name, Clock { slot, ..clock }, book, runs, pipeline)?;
    }
    Ok(())
}

// At time 5 input 1 of three works on slots 11 and 8, whose rows are 5 and 2; times 7 and 10 hand them out.
fn time_5(rt: &impl Print) -> io::Result<()> {
    cases(
        rt,
        "3 ports",
        clock_at(3, 100, 4, 0),
        10,
        BookRuns {
            slots: &[0; 9],
            rates: &[0; 9],
        },
        &mut TurnRuns {
            credits: &mut [1, 0, 0, 0, 0, 0, 0, 0, 0],
            queues: &mut [2, 0, 0, 0, 0, 0, 0, 0, 0],
            given: &mut [0; 3],
        },
        &mut PipelineRuns {
            copy: &mut [0; 9],
            flight: &mut [0; 18],
        },
    )
}

// The first times of a switch whose frames are as long as it has ports: input 2 waits for time 2, slot 3 knows only pass two.
fn frame_of_ports(rt: &impl Print) -> io::Result<()> {
    cases(
        rt,
        "2 ports, frame of 2",
        clock_at(2, 2, 0, 0),
        4,
        BookRuns {
            slots: &[1, 0, 0, 1],
            rates: &[0; 4],
        },
        &mut TurnRuns {
            credits: &mut [0; 4],
            queues: &mut [3, 0, 0, 3],
            given: &mut [0; 2],
        },
        &mut PipelineRuns {
            copy: &mut [0; 4],
            flight: &mut [0; 8],
        },
    )
}

// Frames of three slots on lines of 1000: pair (1, 1) has three streams of 200, which take two slots, and pair (2, 2) a slot and a stream of
// 333. Time 3 reads them for the frame that begins at slot 7.
fn frame_by_rates(rt: &impl Print) -> io::Result<()> {
    cases(
        rt,
        "2 ports by rates",
        clock_at(2, 3, 0, 1000),
        6,
        BookRuns {
            slots: &[0, 0, 0, 1],
            rates: &[600, 0, 0, 333],
        },
        &mut TurnRuns {
            credits: &mut [0; 4],
            queues: &mut [3, 0, 0, 3],
            given: &mut [0; 2],
        },
        &mut PipelineRuns {
            copy: &mut [0; 4],
            flight: &mut [0; 8],
        },
    )
}

// One port and frames of one slot: each slot loads.
fn one_port(rt: &impl Print) -> io::Result<()> {
    cases(
        rt,
        "1 port",
        clock_at(1, 1, 0, 0),
        2,
        BookRuns {
            slots: &[1],
            rates: &[0],
        },
        &mut TurnRuns {
            credits: &mut [0],
            queues: &mut [3],
            given: &mut [0],
        },
        &mut PipelineRuns {
            copy: &mut [0],
            flight: &mut [0; 2],
        },
    )
}

// A booking that is copied and loaded, of one port with frames of one slot and one packet.
fn one_load(rt: &impl Print, name: &str, line: u32, slots: u32, rate: u32) -> io::Result<()> {
    case(
        rt,
        name,
        clock_at(1, 1, 0, line),
        BookRuns {
            slots: &[slots],
            rates: &[rate],
        },
        &mut TurnRuns {
            credits: &mut [0],
            queues: &mut [1],
            given: &mut [0],
        },
        &mut PipelineRuns {
            copy: &mut [0],
            flight: &mut [0; 2],
        },
    )
}

// A line without a rate, on which rates count nothing; one whose rate no start accepts; and bookings at the largest number and past it.
fn loads(rt: &impl Print) -> io::Result<()> {
    one_load(rt, "two slots and rate 400 of 0", 0, 2, 400)?;
    one_load(rt, "rate 100000001 of 200000000", 200000000, 0, 100000001)?;
    one_load(rt, "at the bound", 1, 4294967294, 1)?;
    one_load(rt, "above the bound", 1, 4294967295, 4294967295)
}

// 32 ports, every pair booked and queued. At time 1 only input 1 has turns.
fn input_1(rt: &impl Print) -> io::Result<()> {
    case(
        rt,
        "32 ports",
        clock_at(32, 32, 0, 0),
        BookRuns {
            slots: &[1; 1024],
            rates: &[0; 1024],
        },
        &mut TurnRuns {
            credits: &mut [0; 1024],
            queues: &mut [1; 1024],
            given: &mut [0; 32],
        },
        &mut PipelineRuns {
            copy: &mut [0; 1024],
            flight: &mut [0; 2048],
        },
    )
}

// At time 40 all inputs have turns, and input 8, whose slot is the first of a frame, loads an empty copy.
fn all_inputs(rt: &impl Print) -> io::Result<()> {
    case(
        rt,
        "32 ports",
        clock_at(32, 32, 39, 1),
        BookRuns {
            slots: &[1; 1024],
            rates: &[1; 1024],
        },
        &mut TurnRuns {
            credits: &mut [1; 1024],
            queues: &mut [1; 1024],
            given: &mut [0; 32],
        },
        &mut PipelineRuns {
            copy: &mut [0; 1024],
            flight: &mut [0; 2048],
        },
    )
}

// A booking that moves from input 1 to input 2 between their loads of one frame is not loaded twice: input 2 loads the frame copy.
fn moved_booking(rt: &impl Print) -> io::Result<()> {
    let mut credits = [0; 4];
    let mut queues = [0; 4];
    let mut given = [0; 2];
    let mut copy = [0; 4];
    let mut flight = [0; 8];
    let runs = &mut TurnRuns {
        credits: &mut credits,
        queues: &mut queues,
        given: &mut given,
    };
    let pipeline = &mut PipelineRuns {
        copy: &mut copy,
        flight: &mut flight,
    };
    let before = BookRuns {
        slots: &[1, 0, 0, 0],
        rates: &[0; 4],
    };
    case(
        rt,
        "input 1 loads",
        clock_at(2, 4, 0, 0),
        before,
        runs,
        pipeline,
    )?;
    let after = BookRuns {
        slots: &[0, 0, 1, 0],
        rates: &[0; 4],
    };
    case(
        rt,
        "input 2 loads",
        clock_at(2, 4, 1, 0),
        after,
        runs,
        pipeline,
    )
}

// Rows in flight that no tick left, and last given outputs past the ports, at time 9 of two ports: input 1 works on rows 1 and 3, input 2 on
// rows 0 and 2, and row 2 is handed out.
fn rows(rt: &impl Print, name: &str, flight: &mut [u32]) -> io::Result<()> {
    case(
        rt,
        name,
        clock_at(2, 50, 8, 0),
        BookRuns {
            slots: &[0; 4],
            rates: &[0; 4],
        },
        &mut TurnRuns {
            credits: &mut [0; 4],
            queues: &mut [5; 4],
            given: &mut [3, u32::MAX],
        },
        &mut PipelineRuns {
            copy: &mut [0; 4],
            flight: flight,
        },
    )
}

// Two inputs that have one output are handed out both; words that are read as 0 stand for no output, and last given outputs past the ports for
// none; a full row is left alone, and so are these where nothing is given.
fn garbage(rt: &impl Print) -> io::Result<()> {
    rows(rt, "one output twice", &mut [0, 0, 0, 0, 101, 1, 2, 2])?;
    rows(
        rt,
        "words read as 0",
        &mut [100, 133, 3, 4294967295, 103, 99, 4294967295, 200],
    )?;
    rows(rt, "full rows", &mut [101, 102, 1, 2, 2, 101, 102, 1])
}

// An input with packets for both outputs chooses them in turn, the next one and after the last the first: for slots 11, 12 and 13.
fn in_turn(rt: &impl Print) -> io::Result<()> {
    cases(
        rt,
        "in turn",
        clock_at(2, 50, 8, 0),
        11,
        BookRuns {
            slots: &[0; 4],
            rates: &[0; 4],
        },
        &mut TurnRuns {
            credits: &mut [0; 4],
            queues: &mut [2, 2, 0, 0],
            given: &mut [0; 2],
        },
        &mut PipelineRuns {
            copy: &mut [0; 4],
            flight: &mut [0; 8],
        },
    )
}

// Both turns of an input in one tick: pass one begins past output 1, and pass two past what pass one chose.
fn both_turns(rt: &impl Print) -> io::Result<()> {
    case(
        rt,
        "both turns",
        clock_at(2, 50, 8, 0),
        BookRuns {
            slots: &[0; 4],
            rates: &[0; 4],
        },
        &mut TurnRuns {
            credits: &mut [1, 1, 0, 0],
            queues: &mut [1, 1, 0, 0],
            given: &mut [1, 0],
        },
        &mut PipelineRuns {
            copy: &mut [0; 4],
            flight: &mut [0; 8],
        },
    )
}

// An input that has an output for its pass-one slot pays no credit there, and pays none in pass two.
fn credit_stays(rt: &impl Print) -> io::Result<()> {
    case(
        rt,
        "a credit stays",
        clock_at(1, 50, 10, 0),
        BookRuns {
            slots: &[0],
            rates: &[0],
        },
        &mut TurnRuns {
            credits: &mut [1],
            queues: &mut [1],
            given: &mut [0],
        },
        &mut PipelineRuns {
            copy: &mut [0],
            flight: &mut [0, 101],
        },
    )
}

// The last slot that runs, and the clock that has run it.
fn last_slot(rt: &impl Print) -> io::Result<()> {
    cases(
        rt,
        "1 port",
        clock_at(1, 7, 3999999999, 0),
        4000000001,
        BookRuns {
            slots: &[1],
            rates: &[0],
        },
        &mut TurnRuns {
            credits: &mut [0],
            queues: &mut [2],
            given: &mut [0],
        },
        &mut PipelineRuns {
            copy: &mut [0],
            flight: &mut [0; 2],
        },
    )
}

// A switch with the words of one port, all 0.
fn one_word(rt: &impl Print, name: &str, ports: u32, frame: u32, slot: u32) -> io::Result<()> {
    case(
        rt,
        name,
        clock_at(ports, frame, slot, 0),
        BookRuns {
            slots: &[0],
            rates: &[0],
        },
        &mut TurnRuns {
            credits: &mut [0],
            queues: &mut [0],
            given: &mut [0],
        },
        &mut PipelineRuns {
            copy: &mut [0],
            flight: &mut [0; 2],
        },
    )
}

// The limits of ports and frame, and the order of the questions.
fn limits(rt: &impl Print) -> io::Result<()> {
    one_word(rt, "no ports", 0, 1, 0)?;
    one_word(rt, "33 ports", 33, 50, 0)?;
    one_word(rt, "no slots in a frame", 1, 0, 0)?;
    one_word(rt, "10001 slots in a frame", 1, 10001, 0)?;
    one_word(rt, "3 ports, frame of 2", 3, 2, 0)?;
    one_word(rt, "3 ports, frame of 3, short runs", 3, 3, 0)?;
    one_word(rt, "2 ports, short runs", 2, 2, 4000000000)?;
    one_word(rt, "10000 slots in a frame", 1, 10000, 0)
}

// A switch of two ports whose runs have that many words, all 0.
fn short<
    const SLOTS: usize,
    const RATES: usize,
    const CREDITS: usize,
    const QUEUES: usize,
    const GIVEN: usize,
    const COPY: usize,
    const FLIGHT: usize,
>(rt: &impl Print, name: &str) -> io::Result<()>
    requires slots { SLOTS ≤ 4 }
    requires rates { RATES ≤ 4 }
    requires credits { CREDITS ≤ 4 }
    requires queues { QUEUES ≤ 4 }
    requires given { GIVEN ≤ 2 }
    requires copy { COPY ≤ 4 }
    requires flight { FLIGHT ≤ 8 }
{
    case(
        rt,
        name,
        clock_at(2, 3, 0, 0),
        BookRuns {
            slots: &[0; SLOTS],
            rates: &[0; RATES],
        },
        &mut TurnRuns {
            credits: &mut [0; CREDITS],
            queues: &mut [0; QUEUES],
            given: &mut [0; GIVEN],
        },
        &mut PipelineRuns {
            copy: &mut [0; COPY],
            flight: &mut [0; FLIGHT],
        },
    )
}

// Each run in turn short by one word, and none.
fn short_runs(rt: &impl Print) -> io::Result<()> {
    short::<3, 4, 4, 4, 2, 4, 8>(rt, "slots too short")?;
    short::<4, 3, 4, 4, 2, 4, 8>(rt, "rates too short")?;
    short::<4, 4, 3, 4, 2, 4, 8>(rt, "credits too short")?;
    short::<4, 4, 4, 3, 2, 4, 8>(rt, "queues too short")?;
    short::<4, 4, 4, 4, 1, 4, 8>(rt, "given too short")?;
    short::<4, 4, 4, 4, 2, 3, 8>(rt, "copy too short")?;
    short::<4, 4, 4, 4, 2, 4, 7>(rt, "rows too short")?;
    short::<4, 4, 4, 4, 2, 4, 8>(rt, "long enough")
}

// One word more than is used.
fn word_beyond(rt: &impl Print) -> io::Result<()> {
    case(
        rt,
        "one word beyond",
        clock_at(1, 1, 0, 1),
        BookRuns {
            slots: &[1, 55],
            rates: &[0, 44],
        },
        &mut TurnRuns {
            credits: &mut [0, 66],
            queues: &mut [2, 77],
            given: &mut [0, 33],
        },
        &mut PipelineRuns {
            copy: &mut [0, 88],
            flight: &mut [0, 0, 99],
        },
    )
}

fn main(rt: HostRuntime) -> io::Result<()> {
    time_5(&rt)?;
    frame_of_ports(&rt)?;
    frame_by_rates(&rt)?;
    one_port(&rt)?;
    loads(&rt)?;
    input_1(&rt)?;
    all_inputs(&rt)?;
    moved_booking(&rt)?;
    garbage(&rt)?;
    in_turn(&rt)?;
    both_turns(&rt)?;
    credit_stays(&rt)?;
    last_slot(&rt)?;
    limits(&rt)?;
    short_runs(&rt)?;
    word_beyond(&rt)
}
