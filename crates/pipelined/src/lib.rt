// The pipelined form: a tick works on slots ahead and hands out the pairs of the slot after its own.
#![tactic(auto)]

mod flight;
mod pipeline_turns;

ghost use Rattle.std.specs.Prelude.{◌≡◌, ℕ, ◌+◌, ◌*◌, List, Ok};
ghost use Rattle.wsgs.specs.Questions.{effect};
ghost use Rattle.wsgs.specs.Answers.{pipelined_runs_of, tick_effect};
ghost use Rattle.wsgs.specs.Frames.{into_frame};
ghost use Rattle.wsgs.specs.Told.{pipelined_lent, tick_told, SameTurnRuns, SamePipelineRuns};
ghost use Rattle.wsgs.specs.Pipelined;
ghost use Rattle.pipelined.specs.Turnings.{Copying, Running};

use bookings::copy_bookings;
use flight::hand_out;
use pipeline_turns::{all_turns, look_ahead};
use questions::check_pipelined_tick;
use wsgs::{BookRuns, BookedSlots, Clock, PipelineRuns, Refused, Ticked, TurnRuns};

// Where slot time + 2N is the first of a frame, so that no slot of its frame comes before it, the frame copy becomes the bookings, which are
// worked out from slots and rates.
fn renew_copy(clock: Clock, into: u64, book: BookRuns<'_>, copy: &mut [u32])
    requires copying { Copying clock.ports book.slots.now book.rates.now copy.old }
    ensures copy_exit { (time : ℕ) → into ≡ into_frame clock.frame (time + 2 * clock.ports) → (c q g f : List ℕ)
        → copy.new ≡ Pipelined.copied_at clock.ports clock.frame clock.line time
        (pipelined_runs_of book.entry.slots.now book.entry.rates.now c q g copy.old f) }
{
    if into == 0 {
        let ports = clock.ports as usize;
        let pairs = ports * ports;
        copy_bookings::<BookedSlots>(clock, book, copy, pairs);
    }
}

// An accepted tick: the copy, the turns of all inputs, then the pairs of the next slot, whose row is set to 0.
fn run_tick(
    clock: Clock,
    book: BookRuns<'_>,
    runs: &mut TurnRuns<'_>,
    pipeline: &mut PipelineRuns<'_>,
) -> Ticked
    requires running { Running clock (pipelined_lent book runs.old pipeline.old) }
    ensures loans { SameTurnRuns runs.old runs.new }
    ensures pipeline_loans { SamePipelineRuns pipeline.old pipeline.new }
    ensures outcome { effect (tick_told clock (Ok result)) (pipelined_lent book.entry runs.new pipeline.new)
        ≡ tick_effect (Pipelined.ticked clock (pipelined_lent book.entry runs.old pipeline.old)) }
{
    let next = Clock {
        slot: clock.slot + 1,
        ..clock
    };
    let ahead = look_ahead(clock.ports as usize, clock.frame as u64, next.slot as u64);
    renew_copy(clock, ahead.into, book, pipeline.copy);
    all_turns(ahead, runs, pipeline);
    let served = hand_out(next, pipeline.flight);
    Ticked {
        clock: next,
        served,
    }
}

// A tick: the questions, then the work. The clock goes in and comes back whole.
pub fn tick(
    clock: Clock,
    book: BookRuns<'_>,
    runs: &mut TurnRuns<'_>,
    pipeline: &mut PipelineRuns<'_>,
) -> Result<Ticked, Refused>
    ensures loans { SameTurnRuns runs.old runs.new }
    ensures pipeline_loans { SamePipelineRuns pipeline.old pipeline.new }
    ensures outcome { effect (tick_told clock result) (pipelined_lent book.entry runs.new pipeline.new)
        ≡ tick_effect (Pipelined.tick clock (pipelined_lent book.entry runs.old pipeline.old)) }
{
    // `&mut *`, though the runs are only read: two fields behind a `&mut` that are lent as `&` at once have no proof in this kit.
    check_pipelined_tick(
        clock,
        book,
        &mut *runs.credits,
        &mut *runs.queues,
        &mut *runs.given,
        &mut *pipeline.copy,
        &mut *pipeline.flight,
    )?;
    Ok(run_tick(clock, book, runs, pipeline))
}
