// The turns of a pipelined tick: each input works on one slot by pass one and on another by pass two.
ghost use Rattle.std.specs.Prelude.{◌≡◌, ℕ, ◌+◌, ◌*◌, ◌%◌, ◌<◌, ◌≤◌, List, length};
ghost use Rattle.wsgs.specs.Basics.{Port};
ghost use Rattle.wsgs.specs.Frames.{into_frame};
ghost use Rattle.wsgs.specs.Told.{SameTurnRuns, SamePipelineRuns};
ghost use Rattle.wsgs.specs.Pipelined.{slot_one, turn_one, turn_two, reloaded, turns_of, turns};
ghost use Rattle.pipelined.specs.Turnings.{turn_runs_of, turning_lent, SameLengths, InputOf, TurnFits, RunsFit, Lookahead};

use super::flight::{free_for, output_of, row_before};
use bookings::copy_slots;
use turns::{first_requests, first_turn, second_requests, second_turn};
use words::places::row_of;
use wsgs::{Credits, Input, PipelineRuns, TurnRuns};

// Stays (d): pass one asks first and then looks whether the input has an output, pass two the other way, each for speed (docs/DECISIONS.md), and each has its own
// definition (`turn_one`, `turn_two`); a row stands in the run in flight at a place, as a rule of the project has it.
//
// An input's pass-one turn for the slot whose row begins at a place: it takes an output if it has none for the slot yet. Where it asks for none the row is
// not read.
fn turn_one(ports: usize, row: usize, input: Input, runs: &mut TurnRuns<'_>, flight: &mut [u32])
    requires fits { TurnFits ports input.0 row runs.old.queues.now runs.old.given.now flight.old }
    requires credits_fit { ports * ports ≤ length runs.old.credits.now }
    ensures loans { SameTurnRuns runs.old runs.new }
    ensures lengths { SameLengths runs.old runs.new }
    ensures turn { (s : ℕ) → row ≡ s % (2 * ports) * ports
        → turn_runs_of runs.new.credits.now runs.new.queues.now runs.new.given.now flight.new
        ≡ turn_one ports s input.0
        (turn_runs_of runs.old.credits.now runs.old.queues.now runs.old.given.now flight.old) }
{
    // `&mut *`, though the runs are only read: two fields behind a `&mut` that are lent as `&` at once have no proof in this kit.
    let asked = first_requests(ports, input, &mut *runs.credits, &mut *runs.queues);
    if asked == 0 {
        return;
    }
    let at = row + (input.0 - 1) as usize;
    if output_of(ports, flight[at]).is_some() {
        return;
    }
    let free = free_for(ports, row, flight);
    let choice = first_turn(free, asked, ports, input, runs);
    if let Some(output) = choice.output {
        flight[at] = 100 + output.0 as u32;
    }
}

// Stays (d): as `turn_one`; and pass two is lent no credits.
//
// An input's pass-two turn for the slot whose row begins at a place, likewise. It often has an output by then, so that is asked first.
fn turn_two(
    ports: usize,
    row: usize,
    input: Input,
    queues: &mut [u32],
    given: &mut [u32],
    flight: &mut [u32],
)
    requires fits { TurnFits ports input.0 row queues.old given.old flight.old }
    ensures turn { (s : ℕ) → row ≡ s % (2 * ports) * ports → (c : List ℕ)
        → turn_runs_of c queues.new given.new flight.new
        ≡ turn_two ports s input.0 (turn_runs_of c queues.old given.old flight.old) }
{
    let at = row + (input.0 - 1) as usize;
    if output_of(ports, flight[at]).is_some() {
        return;
    }
    let asked = second_requests(ports, input, queues);
    if asked == 0 {
        return;
    }
    let free = free_for(ports, row, flight);
    let choice = second_turn(free, asked, ports, input, queues, given);
    if let Some(output) = choice.output {
        flight[at] = output.0 as u32;
    }
}

// Stays (d): that a run holds the pairs is said of two runs here; `RunsFit` says it of all, one of which this may write.
//
// An input sets its row of credits from the frame copy where its slot of pass one is the first of a frame. `into` tells how many slots of its
// frame come before slot time + 2N, which is that of input 1; that of input i comes i - 1 slots before.
fn reload_row(
    ports: usize,
    into: u64,
    input: Input,
    pipeline: &PipelineRuns<'_>,
    credits: &mut [u32],
)
    requires input { InputOf ports input.0 }
    requires copy_fits { ports * ports ≤ length pipeline.now.copy.now }
    requires credits_fit { ports * ports ≤ length credits.old }
    ensures reload { (frame time : ℕ) → ports ≤ frame → into ≡ into_frame frame (time + 2 * ports) → (q g f : List ℕ)
        → turn_runs_of credits.new q g f
        ≡ reloaded ports frame pipeline.now.copy.now (slot_one ports time input.0) input.0
        (turn_runs_of credits.old q g f) }
{
    if into == input.0 - 1 {
        let row = row_of(ports, input);
        copy_slots::<Credits>(&pipeline.copy[row..], &mut credits[row..], ports);
    }
}

// What a tick knows of the slots ahead of its time: the number of the row of slot time + 2N + 1 and of slot time + N + 1, and how many slots of
// its frame come before slot time + 2N.
#[derive(Clone, Copy)]
pub struct SlotsAhead {
    pub ports: usize,
    pub frame: u64,
    pub time: u64,
    pub one: usize,
    pub two: usize,
    pub into: u64,
    pub ghost known: { Lookahead ports frame time one two into },
}

// Stays (d): its caller's `Running` says these facts of the clock; here they become the ghost field.
//
// What a tick knows of the slots ahead, so that no turn divides.
pub fn look_ahead(ports: usize, frame: u64, time: u64) -> SlotsAhead
    requires ports { Port 32 ports }
    requires frame_covers { ports ≤ frame }
    requires time { time ≤ 4000000000 }
    ensures ports { result.ports ≡ ports }
    ensures frame { result.frame ≡ frame }
    ensures time { result.time ≡ time }
{
    let rows = 2 * ports as u64;
    let one = ((time + 1) % rows) as usize;
    let mut two = one + ports;
    if one >= ports {
        two = one - ports;
    }
    SlotsAhead {
        ports,
        frame,
        time,
        one,
        two,
        into: (time + rows - 1) % frame,
    }
}

// An input's part in a tick: it reloads its credits, and has its turn of each pass. It has none before the time that is its number, when its
// slots would be below 2N + 1 and N + 1.
fn turns_of(
    ahead: SlotsAhead,
    input: Input,
    runs: &mut TurnRuns<'_>,
    pipeline: &mut PipelineRuns<'_>,
)
    requires input { Port ahead.ports input.0 }
    requires fits { RunsFit ahead.ports pipeline.old.copy.now (turning_lent runs.old pipeline.old) }
    ensures loans { SameTurnRuns runs.old runs.new }
    ensures pipeline_loans { SamePipelineRuns pipeline.old pipeline.new }
    ensures copy_stays { pipeline.new.copy.now ≡ pipeline.old.copy.now }
    ensures fit { RunsFit ahead.ports pipeline.new.copy.now (turning_lent runs.new pipeline.new) }
    ensures turns { turning_lent runs.new pipeline.new
        ≡ turns_of ahead.ports ahead.frame pipeline.old.copy.now ahead.time input.0
        (turning_lent runs.old pipeline.old) }
{
    if input.0 <= ahead.time {
        reload_row(ahead.ports, ahead.into, input, pipeline, runs.credits);
        let one = row_before(ahead.ports, ahead.one, input);
        turn_one(ahead.ports, one, input, runs, pipeline.flight);
        let two = row_before(ahead.ports, ahead.two, input);
        turn_two(
            ahead.ports,
            two,
            input,
            runs.queues,
            runs.given,
            pipeline.flight,
        );
    }
}

// Stays (d): an input is its number, so the loop goes over the numbers.
//
// The turns of all inputs.
pub fn all_turns(ahead: SlotsAhead, runs: &mut TurnRuns<'_>, pipeline: &mut PipelineRuns<'_>)
    requires fits { RunsFit ahead.ports pipeline.old.copy.now (turning_lent runs.old pipeline.old) }
    ensures loans { SameTurnRuns runs.old runs.new }
    ensures pipeline_loans { SamePipelineRuns pipeline.old pipeline.new }
    ensures copy_stays { pipeline.new.copy.now ≡ pipeline.old.copy.now }
    ensures fit { RunsFit ahead.ports pipeline.new.copy.now (turning_lent runs.new pipeline.new) }
    ensures turns { turning_lent runs.new pipeline.new
        ≡ turns ahead.ports ahead.frame pipeline.old.copy.now ahead.time
        (turning_lent runs.old pipeline.old) ahead.ports }
{
    for done in 0..ahead.ports {
        turns_of(ahead, Input(done as u64 + 1), runs, pipeline);
    }
}
