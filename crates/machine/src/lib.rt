// The machine of the event program: what a record and a slot do to it, and the refusal or the pairs that are to be printed.
#![tactic(auto)]

mod calls;
mod refusals;
mod slots;

ghost use Rattle.std.specs.Prelude.{◌≡◌, ◌≤◌, IfErr};
ghost use Rattle.wsgs.specs.Program.{obey, run_slot};
ghost use Rattle.wsgs.specs.Told.{reading_of, book_lent, SameTurnRuns, SamePipelineRuns};
ghost use Rattle.machine.specs.View.{last_number, machine_lent, machine_of, SameSwitchRuns, record_outcome_of, slot_outcome_of};

use calls::obey_request;
use refusals::{number_alone, refusal_line};
use slots::{run_tick, shown_slot};
use wsgs::{BookRuns, Clock, Form, PipelineRuns, RefusalLine, Request, Served, Ticked, TurnRuns};

// The words of a run that holds a word for each pair of 32 ports, of one that holds a word for each input, and of one that holds the rows in
// flight.
pub const PAIR_WORDS: usize = 1_024;

pub const PORT_WORDS: usize = 32;

pub const FLIGHT_WORDS: usize = 2_048;

// The machine beside its lent runs: whether a start or pipe has been accepted, the form of its slots, which is that of the last one, and the
// clock.
// Stays (a): `machine::obey`, `run_slot`, `events::feed`, `feeding::feed_text` and `feed_end` answer for a machine of either form that has not
// been started, so the form stands beside `running`, and is no `Option<Form>`.
#[derive(Clone, Copy)]
pub struct Machine {
    pub running: bool,
    pub form: Form,
    pub clock: Clock,
}

// The lent runs of a switch of either form.
#[derive(Drop)]
pub struct SwitchRuns<'a> {
    pub slots: &'a mut [u32],
    pub rates: &'a mut [u32],
    pub turns: TurnRuns<'a>,
    pub pipeline: PipelineRuns<'a>,
}

// What a record leaves: the machine, and the slots still to run or its refusal.
#[derive(Clone, Copy)]
pub struct RecordResult {
    pub machine: Machine,
    pub outcome: Result<u64, RefusalLine>,
}

// What a slot leaves: the machine, and the slot whose pairs its tick hands out with the pairs, or its refusal.
#[derive(Clone, Copy)]
pub struct SlotPairs {
    pub slot: u64,
    pub served: Served,
}

#[derive(Clone, Copy)]
pub struct SlotResult {
    pub machine: Machine,
    pub outcome: Result<SlotPairs, RefusalLine>,
}

// A record: what it does at once. Slots that it asks for are left to run. One that cannot be read is refused by its reader's number, of which 0
// is none; any other refusal has the number of a `Refused`.
pub fn obey(
    machine: Machine,
    reading: Result<Request, u32>,
    runs: &mut SwitchRuns<'_>,
) -> RecordResult
    ensures loans { SameSwitchRuns runs.old runs.new }
    ensures outcome { record_outcome_of result runs.new
        ≡ obey (machine_of machine runs.old) (reading_of reading) }
    ensures refused { IfErr result.outcome (λ line. 1 ≤ line.number) }
    ensures known { IfErr reading (λ number. number ≤ last_number) → IfErr result.outcome (λ line. line.number ≤ last_number) }
{
    let request = match reading {
        Ok(request) => request,
        Err(0) => {
            return RecordResult {
                machine,
                outcome: Ok(0),
            };
        }
        Err(number) => {
            return RecordResult {
                machine,
                outcome: Err(number_alone(number)),
            };
        }
    };
    match obey_request(machine, request, runs) {
        Ok((machine, slots_left)) => RecordResult {
            machine,
            outcome: Ok(slots_left),
        },
        Err(refused) => RecordResult {
            machine,
            outcome: Err(refusal_line(machine, request.input, request.output, refused)),
        },
    }
}

// One of the slots that are left to run: the tick of the machine's form.
pub fn run_slot(
    machine: Machine,
    book: BookRuns<'_>,
    turns: &mut TurnRuns<'_>,
    pipeline: &mut PipelineRuns<'_>,
) -> SlotResult
    ensures loans { SameTurnRuns turns.old turns.new }
    ensures pipeline_loans { SamePipelineRuns pipeline.old pipeline.new }
    ensures outcome { slot_outcome_of result (book_lent book.entry) turns.new pipeline.new
        ≡ run_slot (machine_lent machine (book_lent book.entry) turns.old pipeline.old) }
    ensures refused { IfErr result.outcome (λ line. 1 ≤ line.number) }
    ensures known { IfErr result.outcome (λ line. line.number ≤ last_number) }
{
    match run_tick(machine, book, turns, pipeline) {
        Ok(Ticked { clock, served }) => {
            let machine = Machine { clock, ..machine };
            let slot = shown_slot(machine);
            SlotResult {
                machine,
                outcome: Ok(SlotPairs { slot, served }),
            }
        }
        Err(refused) => SlotResult {
            machine,
            outcome: Err(refusal_line(machine, 0, 0, refused)),
        },
    }
}
