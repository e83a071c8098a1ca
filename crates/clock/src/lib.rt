// The ticks of both forms, with the clock advanced in place. The slot is run by crates/direct or crates/pipelined, which take the clock by value
// and give it back; what they give back is stored in the lent one, which stays as it is where the tick is refused.
#![tactic(auto)]

ghost use Rattle.std.specs.Prelude.{◌≡◌, OnErr};
ghost use Rattle.wsgs.specs.Questions.{effect};
ghost use Rattle.wsgs.specs.Answers.{tick_effect, answer_effect};
ghost use Rattle.wsgs.specs.Told.{direct_lent, pipelined_lent, tick_told, answer_told, SameTurnRuns, SamePipelineRuns};
ghost use Rattle.wsgs.specs.Direct;
ghost use Rattle.wsgs.specs.Pipelined;

use wsgs::{BookRuns, Clock, PipelineRuns, Refused, Served, Ticked, TurnRuns};

// Stays (d), of the four functions: a tick of each form is lent its own runs and promises its own definition (`Direct.tick`, `Pipelined.tick`), so one for both
// would want a trait with the runs, the definition and the loans as ghost members and an impl for each form, for bodies of three lines.
//
// A tick of the direct form, which advances the lent clock.
pub fn tick_direct(
    clock: &mut Clock,
    book: BookRuns<'_>,
    runs: &mut TurnRuns<'_>,
) -> Result<Served, Refused>
    ensures loans { SameTurnRuns runs.old runs.new }
    ensures stays { OnErr result (clock.new ≡ clock.old) }
    ensures outcome { effect (answer_told result) (clock.new, direct_lent book.entry runs.new)
        ≡ answer_effect (Direct.tick clock.old (direct_lent book.entry runs.old)) }
{
    let ticked = direct::tick(*clock, book, runs)?;
    *clock = ticked.clock;
    Ok(ticked.served)
}

// Stays (d): as `tick_direct`.
//
// The same by value: code that has a clock of its own runs the tick above through this, and lends no clock.
pub fn step_direct(
    clock: Clock,
    book: BookRuns<'_>,
    runs: &mut TurnRuns<'_>,
) -> Result<Ticked, Refused>
    ensures loans { SameTurnRuns runs.old runs.new }
    ensures outcome { effect (tick_told clock result) (direct_lent book.entry runs.new)
        ≡ tick_effect (Direct.tick clock (direct_lent book.entry runs.old)) }
{
    let mut advanced = clock;
    let served = tick_direct(&mut advanced, book, runs)?;
    Ok(Ticked {
        clock: advanced,
        served,
    })
}

// Stays (d): as `tick_direct`.
//
// A tick of the pipelined form, which advances the lent clock.
pub fn tick_pipelined(
    clock: &mut Clock,
    book: BookRuns<'_>,
    runs: &mut TurnRuns<'_>,
    pipeline: &mut PipelineRuns<'_>,
) -> Result<Served, Refused>
    ensures loans { SameTurnRuns runs.old runs.new }
    ensures pipeline_loans { SamePipelineRuns pipeline.old pipeline.new }
    ensures stays { OnErr result (clock.new ≡ clock.old) }
    ensures outcome { effect (answer_told result) (clock.new, pipelined_lent book.entry runs.new pipeline.new)
        ≡ answer_effect (Pipelined.tick clock.old (pipelined_lent book.entry runs.old pipeline.old)) }
{
    let ticked = pipelined::tick(*clock, book, runs, pipeline)?;
    *clock = ticked.clock;
    Ok(ticked.served)
}

// Stays (d): as `tick_direct`.
//
// The same by value: code that has a clock of its own runs the tick above through this, and lends no clock.
pub fn step_pipelined(
    clock: Clock,
    book: BookRuns<'_>,
    runs: &mut TurnRuns<'_>,
    pipeline: &mut PipelineRuns<'_>,
) -> Result<Ticked, Refused>
    ensures loans { SameTurnRuns runs.old runs.new }
    ensures pipeline_loans { SamePipelineRuns pipeline.old pipeline.new }
    ensures outcome { effect (tick_told clock result) (pipelined_lent book.entry runs.new pipeline.new)
        ≡ tick_effect (Pipelined.tick clock (pipelined_lent book.entry runs.old pipeline.old)) }
{
    let mut advanced = clock;
    let served = tick_pipelined(&mut advanced, book, runs, pipeline)?;
    Ok(Ticked {
        clock: advanced,
        served,
    })
}
