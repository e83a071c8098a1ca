// A slot of a tick record: the tick of the machine's form.
ghost use Rattle.std.specs.Prelude.{◌≡◌};
ghost use Rattle.wsgs.specs.Ledger.{slot_of_tick};
ghost use Rattle.wsgs.specs.Told.{form_told, book_lent, SameTurnRuns, SamePipelineRuns};
ghost use Rattle.machine.specs.View.{switch_lent, tick_outcome_of};
ghost use Rattle.wsgs.specs.Switch.{apply, tick};

use crate::Machine;
use clock::{step_direct, step_pipelined};
use wsgs::{BookRuns, Form, PipelineRuns, Refused, Ticked, TurnRuns};

// The slot whose pairs the last tick of a machine hands out.
pub fn shown_slot(machine: Machine) -> u64
    ensures slot { result ≡ slot_of_tick (form_told machine.form) machine.clock.slot }
{
    let slot = u64::from(machine.clock.slot);
    match machine.form {
        Form::Direct => slot,
        Form::Pipelined => slot + 1,
    }
}

// The tick.
// Stays (d): the two ticks take other runs, and are told apart here alone.
pub fn run_tick(
    machine: Machine,
    book: BookRuns<'_>,
    turns: &mut TurnRuns<'_>,
    pipeline: &mut PipelineRuns<'_>,
) -> Result<Ticked, Refused>
    ensures loans { SameTurnRuns turns.old turns.new }
    ensures pipeline_loans { SamePipelineRuns pipeline.old pipeline.new }
    ensures outcome { tick_outcome_of machine.clock result (book_lent book.entry) turns.new pipeline.new
        ≡ apply (tick (form_told machine.form)) (switch_lent machine.clock (book_lent book.entry) turns.old pipeline.old) }
{
    let Machine { form, clock, .. } = machine;
    match form {
        Form::Direct => step_direct(clock, book, turns),
        Form::Pipelined => step_pipelined(clock, book, turns, pipeline),
    }
}
