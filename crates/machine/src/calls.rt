// What a request does at once to the machine, by its operation.
ghost use Rattle.std.specs.Prelude.{◌≡◌, Ok};
ghost use Rattle.wsgs.specs.Program.{obey, run_start};
ghost use Rattle.wsgs.specs.Switch.{direct, pipelined};
ghost use Rattle.wsgs.specs.Told.{reading_of};
ghost use Rattle.machine.specs.View.{machine_of, SameSwitchRuns, request_outcome_of};

use crate::{Machine, SwitchRuns};
use questions::is_between;
use starts::{start_direct, start_pipelined};
use wsgs::{BookKind, BookedSlots, Form, Input, Operation, Output, Pair, Refused, Request};

// The most slots that a tick record asks for.
const MAX_TICK_SLOTS: u64 = 10_000;

// The rate of a line that a start or pipe record gives: none, since no record books by rate.
const LINE_RATE: u64 = 0;

// Stays (d), of both starts: each form has its own call and definition (starts::start_direct), and what they share is two lines.
//
// Starts a direct switch.
fn obey_start(
    machine: Machine,
    request: Request,
    runs: &mut SwitchRuns<'_>,
) -> Result<(Machine, u64), Refused>
    ensures loans { SameSwitchRuns runs.old runs.new }
    ensures outcome { request_outcome_of machine request result runs.new
        ≡ run_start (machine_of machine runs.old) direct request.input request.output }
{
    let clock = start_direct(
        request.input,
        request.output,
        LINE_RATE,
        BookKind::Plain,
        runs.slots,
        runs.rates,
        &mut runs.turns,
    )?;
    let machine = Machine {
        running: true,
        form: Form::Direct,
        clock,
    };
    Ok((machine, 0))
}

// Stays (d): as `obey_start`.
//
// Starts a pipelined switch.
fn obey_pipe(
    machine: Machine,
    request: Request,
    runs: &mut SwitchRuns<'_>,
) -> Result<(Machine, u64), Refused>
    ensures loans { SameSwitchRuns runs.old runs.new }
    ensures outcome { request_outcome_of machine request result runs.new
        ≡ run_start (machine_of machine runs.old) pipelined request.input request.output }
{
    let clock = start_pipelined(
        request.input,
        request.output,
        LINE_RATE,
        BookKind::Plain,
        runs.slots,
        runs.rates,
        &mut runs.turns,
        &mut runs.pipeline,
    )?;
    let machine = Machine {
        running: true,
        form: Form::Pipelined,
        clock,
    };
    Ok((machine, 0))
}

// Stays (d): the operation comes as data, and each arm is one call with its own words; closures would be made by such a match too.
//
// A request: the machine after it, and the slots that it leaves to run.
pub fn obey_request(
    machine: Machine,
    request: Request,
    runs: &mut SwitchRuns<'_>,
) -> Result<(Machine, u64), Refused>
    ensures loans { SameSwitchRuns runs.old runs.new }
    ensures outcome { request_outcome_of machine request result runs.new
        ≡ obey (machine_of machine runs.old) (reading_of (Ok request)) }
{
    let clock = machine.clock;
    let pair = Pair {
        input: Input(request.input),
        output: Output(request.output),
    };
    let amount = BookedSlots(request.amount);
    match request.operation {
        Operation::Start => obey_start(machine, request, runs),
        Operation::Pipe => obey_pipe(machine, request, runs),
        Operation::Book => {
            let rates = &mut *runs.rates;
            book::book(clock, runs.slots, rates, pair, amount)?;
            Ok((machine, 0))
        }
        Operation::Release => {
            let rates = &mut *runs.rates;
            book::release(clock, runs.slots, rates, pair, amount)?;
            Ok((machine, 0))
        }
        Operation::Arrive => {
            book::arrive(clock, runs.turns.queues, pair, request.amount)?;
            Ok((machine, 0))
        }
        Operation::Tick => {
            if is_between(1, MAX_TICK_SLOTS, request.amount) {
                Ok((machine, request.amount))
            } else {
                Err(Refused::Amount)
            }
        }
    }
}
