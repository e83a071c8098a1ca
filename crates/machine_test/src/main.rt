// Records and slots at the edges of what a machine does, a line for each case: what is left to run or handed out, or the fields of the refusal's line.
// The lines of `stdout` were checked by hand: against the rules, and those of readings by other numbers than 12 to 14 and of machines that have not been
// started against specs/Program of wsgs.
#![tactic(auto)]

use machine::{Machine, RecordResult, SlotResult, SwitchRuns, obey, run_slot};
use std::{fmt, io};
use wsgs::{BookRuns, Clock, Form, Operation, PipelineRuns, RefusalLine, Request, TurnRuns};

// What a record or a slot leaves, with its name; or the refusal: the last slot run, the second and third field, and the number.
#[derive(Clone, Copy)]
struct Shown {
    outcome: Result<u64, RefusalLine>,
    name: &'static str,
}

impl fmt::Display for Shown {
    fn fmt<W: fmt::Write>(&self, f: &mut fmt::Formatter<W>) -> fmt::Result {
        let Shown { outcome, name } = *self;
        match outcome {
            Ok(number) => write!(f, "{name} {number}"),
            Err(line) => {
                let RefusalLine {
                    slot,
                    input,
                    output,
                    number,
                } = line;
                write!(f, "refused {slot},{input},{output},{number}")
            }
        }
    }
}

// What a record leaves: slots to run. And what a slot does: its number.
fn obeyed(told: RecordResult) -> Shown {
    Shown {
        outcome: told.outcome,
        name: "slots left",
    }
}

fn ran(told: SlotResult) -> Shown {
    Shown {
        outcome: told.outcome.map(|pairs| pairs.slot),
        name: "pairs of slot",
    }
}

// A machine of two ports that runs or has not been started.
// Stays (d): a constructor, of what each case has of its own; `running` is the field's name.
fn machine(running: bool, form: Form, frame: u32, slot: u32) -> Machine {
    let clock = Clock {
        ports: 2,
        frame,
        slot,
        line: 0,
        fine: 0,
    };
    Machine {
        running,
        form,
        clock,
    }
}

// Records that cannot be read, by their reader's number.
fn unread(rt: &impl Print, runs: &mut SwitchRuns<'_>) -> io::Result<()> {
    for number in [0, 12, 13, 14, 15, 16, u32::MAX] {
        let told = obey(machine(true, Form::Direct, 4, 9), Err(number), runs);
        println!(rt; "unread by {number}: {}", obeyed(told))?;
    }
    Ok(())
}

// Tick records and a booking, on a machine that runs and on one that has not been started.
fn requests(rt: &impl Print, runs: &mut SwitchRuns<'_>) -> io::Result<()> {
    for (operation, amount) in [
        (Operation::Tick, 10_000),
        (Operation::Tick, 10_001),
        (Operation::Book, 5),
    ] {
        for running in [true, false] {
            let request = Request {
                operation,
                input: 1,
                output: 2,
                amount,
            };
            let told = obey(machine(running, Form::Direct, 4, 9), Ok(request), runs);
            println!(rt;
                "{operation:?} {amount}, started {running}: {}",
                obeyed(told)
            )?;
        }
    }
    Ok(())
}

// Slots: in a frame of no slots, in one with fewer than there are ports, past the last slot that a clock can count, and in turn.
fn slots(rt: &impl Print, runs: &mut SwitchRuns<'_>) -> io::Result<()> {
    for form in [Form::Direct, Form::Pipelined] {
        for (frame, slot) in [(0, 9), (1, 9), (4, 4_000_000_000), (4, 9)] {
            for running in [true, false] {
                let book = BookRuns {
                    slots: &mut *runs.slots,
                    rates: &mut *runs.rates,
                };
                let told = run_slot(
                    machine(running, form, frame, slot),
                    book,
                    &mut runs.turns,
                    &mut runs.pipeline,
                );
                println!(rt;
                    "{form:?}, frame {frame}, slot {slot}, started {running}: {}",
                    ran(told)
                )?;
            }
        }
    }
    Ok(())
}

fn main(rt: HostRuntime) -> io::Result<()> {
    let turns = TurnRuns {
        credits: &mut [0; 4],
        queues: &mut [0; 4],
        given: &mut [0; 2],
    };
    let pipeline = PipelineRuns {
        copy: &mut [0; 4],
        flight: &mut [0; 8],
    };
    let mut runs = SwitchRuns {
        slots: &mut [0; 4],
        rates: &mut [0; 4],
        turns,
        pipeline,
    };
    unread(&rt, &mut runs)?;
    requests(&rt, &mut runs)?;
    slots(&rt, &mut runs)
}
