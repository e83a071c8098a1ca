// Refusals, as their lines have them.
ghost use Rattle.std.specs.Prelude.{◌≡◌, ◌≤◌, Some};
ghost use Rattle.wsgs.specs.declared.TurnRuns.{TurnRuns};
ghost use Rattle.wsgs.specs.declared.PipelineRuns.{PipelineRuns};
ghost use Rattle.wsgs.specs.Bookings.{Book};
ghost use Rattle.wsgs.specs.Program.{number_alone, refusal_of};
ghost use Rattle.wsgs.specs.Told.{number, refusal_told};
ghost use Rattle.machine.specs.View.{last_number, machine_lent};

use crate::Machine;
use wsgs::{RefusalLine, Refused};

// A refusal that has its number alone.
// Stays (d): a From<u32> of wsgs would not say that all but the number is 0.
pub fn number_alone(number: u32) -> RefusalLine
    ensures line { refusal_told (Some result) ≡ number_alone number }
{
    RefusalLine {
        slot: 0,
        input: 0,
        output: 0,
        number,
    }
}

// A call's refusal, with the second and third field of its record, which of a start are no ports. Before any accepted start or pipe it has its number alone.
// Stays (d): the two fields of a start's record are sizes and no ports, so no Pair is made of them.
pub fn refusal_line(machine: Machine, input: u64, output: u64, refused: Refused) -> RefusalLine
    ensures line { (b : Book) (t : TurnRuns) (p : PipelineRuns) → refusal_told (Some result)
        ≡ refusal_of (machine_lent machine b t p) input output (number refused) }
    ensures refused { 1 ≤ result.number }
    ensures known { result.number ≤ last_number }
{
    let number = u32::from(refused);
    if !machine.running {
        return number_alone(number);
    }
    RefusalLine {
        slot: u64::from(machine.clock.slot),
        input,
        output,
        number,
    }
}
