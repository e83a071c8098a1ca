// The starts of a switch, direct and pipelined: refused, or every used word set to 0.
#![tactic(auto)]

ghost use Rattle.std.specs.Prelude.{◌≡◌};
ghost use Rattle.wsgs.specs.declared.Clock.{Clock};
ghost use Rattle.wsgs.specs.Questions.{effect};
ghost use Rattle.wsgs.specs.Answers.{start_effect, direct_runs_of, pipelined_runs_of};
ghost use Rattle.wsgs.specs.Told.{kind_is_fine, start_told, SameTurnRuns, SamePipelineRuns};
ghost use Rattle.wsgs.specs.Direct;
ghost use Rattle.wsgs.specs.Pipelined;

mod initial;

use initial::{clear_pipeline, clear_runs, first_clock};
use questions::{check_direct_start, check_pipelined_start};
use wsgs::{BookKind, BookRuns, Clock, PipelineRuns, Refused, TurnRuns};

// Starts a direct switch, with a plain book or a fine one. A refused start leaves the runs, and whatever clock c its caller has.
// Stays (d): start_pipelined is this with its own questions and a line more, and what both do is clear_runs and first_clock; one function would
// take an Option of a pipeline to write to, and promise by cases what it holds. The book's runs are written at a start alone, so no struct has
// them so (BookRuns is for reading); ports, frame and line are the words of one call, and nowhere kept.
pub fn start_direct(
    ports: u64,
    frame: u64,
    line: u64,
    kind: BookKind,
    slots: &mut [u32],
    rates: &mut [u32],
    runs: &mut TurnRuns<'_>,
) -> Result<Clock, Refused>
    ensures loans { SameTurnRuns runs.old runs.new }
    ensures outcome { (c : Clock) → effect (start_told c result)
        (direct_runs_of slots.new rates.new runs.new.credits.now runs.new.queues.now runs.new.given.now)
        ≡ start_effect (Direct.start ports frame line (kind_is_fine kind) c
        (direct_runs_of slots.old rates.old runs.old.credits.now runs.old.queues.now runs.old.given.now)) }
{
    // `&mut *`, though the runs are only read: two fields behind a `&mut` that are lent as `&` at once have no proof in this kit.
    check_direct_start(
        ports,
        frame,
        line,
        BookRuns { slots, rates },
        &mut *runs.credits,
        &mut *runs.queues,
        &mut *runs.given,
    )?;
    clear_runs(ports, slots, rates, runs);
    Ok(first_clock(ports, frame, line, kind))
}

// Starts a pipelined switch, with a plain book or a fine one.
// Stays (d): as start_direct.
pub fn start_pipelined(
    ports: u64,
    frame: u64,
    line: u64,
    kind: BookKind,
    slots: &mut [u32],
    rates: &mut [u32],
    runs: &mut TurnRuns<'_>,
    pipeline: &mut PipelineRuns<'_>,
) -> Result<Clock, Refused>
    ensures loans { SameTurnRuns runs.old runs.new }
    ensures pipeline_loans { SamePipelineRuns pipeline.old pipeline.new }
    ensures outcome { (c : Clock) → effect (start_told c result)
        (pipelined_runs_of slots.new rates.new runs.new.credits.now runs.new.queues.now
        runs.new.given.now pipeline.new.copy.now pipeline.new.flight.now)
        ≡ start_effect (Pipelined.start ports frame line (kind_is_fine kind) c
        (pipelined_runs_of slots.old rates.old runs.old.credits.now runs.old.queues.now
        runs.old.given.now pipeline.old.copy.now pipeline.old.flight.now)) }
{
    // `&mut *` as in start_direct.
    check_pipelined_start(
        ports,
        frame,
        line,
        BookRuns { slots, rates },
        &mut *runs.credits,
        &mut *runs.queues,
        &mut *runs.given,
        &mut *pipeline.copy,
        &mut *pipeline.flight,
    )?;
    clear_runs(ports, slots, rates, runs);
    clear_pipeline(ports, pipeline);
    Ok(first_clock(ports, frame, line, kind))
}
