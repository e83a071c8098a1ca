// The steps of feeding: a slot where one is to run, else a byte. What a step prints stands at the front of what is left of the output.
ghost use Rattle.std.specs.Prelude.{◌≡◌, List, ℕ, ◌≤◌, ◌<◌, length};
ghost use Rattle.lines.specs.Lines.{slot_room};
ghost use Rattle.machine.specs.View.{SameSwitchRuns};
ghost use Rattle.events.specs.Feeding.{kept_bytes, slot_step, next_step, next_taken};
ghost use Rattle.events.specs.View.{state_of, StepWritten};

use crate::bytes::take_byte;
use crate::{FeedResult, Progress};
use lines::{refusal_line, slot_lines};
use machine::{SwitchRuns, run_slot};
use wsgs::BookRuns;

// Stays (d): the new progress is the old one with two fields set; no field is copied from another struct by hand.
//
// A slot of a tick record: the first slot that is refused ends the record.
#[inline(always)]
fn step_slot(progress: Progress, out: &mut [u8], runs: &mut SwitchRuns<'_>) -> FeedResult
    requires some { 1 ≤ progress.slots_left }
    requires room { slot_room ≤ length out.old }
    ensures loans { SameSwitchRuns runs.old runs.new }
    ensures taken { result.taken ≡ 0 }
    ensures outcome { (b : List ℕ) → StepWritten (slot_step (state_of progress b runs.old))
        (state_of result.progress b runs.new) out.old 0 result.written out.new }
{
    let slots = &mut *runs.slots;
    let rates = &mut *runs.rates;
    let book = BookRuns { slots, rates };
    let slot = run_slot(progress.machine, book, &mut runs.turns, &mut runs.pipeline);
    let machine = slot.machine;
    match slot.outcome {
        Ok(pairs) => FeedResult {
            progress: Progress {
                machine,
                slots_left: progress.slots_left - 1,
                ..progress
            },
            taken: 0,
            written: slot_lines(out, pairs.slot, machine.clock.ports, pairs.served),
        },
        Err(line) => FeedResult {
            progress: Progress {
                machine,
                slots_left: 0,
                ..progress
            },
            taken: 0,
            written: refusal_line(out, Some(line)),
        },
    }
}

// A step: a slot where one is to run, else a byte.
// Stays (a): `State` of the clause has the whole lent buffer, of any length from 65 on, so each function tells the length that it needs.
// Stays (d): the two steps take other arguments, and are told apart here alone.
#[inline(always)]
pub fn step(
    progress: Progress,
    block: &[u8],
    buffer: &mut [u8],
    out: &mut [u8],
    runs: &mut SwitchRuns<'_>,
) -> FeedResult
    requires some { progress.slots_left ≡ 0 → 0 < length block.now }
    requires buffer { kept_bytes ≤ length buffer.old }
    requires room { slot_room ≤ length out.old }
    ensures loans { SameSwitchRuns runs.old runs.new }
    ensures taken { result.taken ≡ next_taken (state_of progress buffer.old runs.old) 0 }
    ensures outcome { StepWritten (next_step block.now (state_of progress buffer.old runs.old) 0)
        (state_of result.progress buffer.new runs.new) out.old 0 result.written out.new }
{
    if progress.slots_left > 0 {
        return step_slot(progress, out, runs);
    }
    take_byte(progress, block[0], buffer, out, runs)
}
