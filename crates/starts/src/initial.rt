// What starts share: the clock of a switch that has run no slot yet, and the words set to 0.
ghost use Rattle.std.specs.Prelude.{◌≡◌, ◌*◌, ◌≤◌};
ghost use Rattle.wsgs.specs.Clocks.{first_clock};
ghost use Rattle.wsgs.specs.Told.{kind_is_fine, SameTurnRuns, SamePipelineRuns};
ghost use Rattle.words.specs.Runs.{clear_words};
ghost use Rattle.questions.specs.Refusals.{StartInRange};

use words::clear_words;
use wsgs::{BookKind, Clock, PipelineRuns, TurnRuns};

// The clock of numbers in range, before the first slot, with the word for the kind of the book.
// Stays (d): this is the constructor; a From would take the four as a tuple, without their names.
pub fn first_clock(ports: u64, frame: u64, line: u64, kind: BookKind) -> Clock
    requires start_in_range { StartInRange ports frame line }
    ensures result { result ≡ first_clock ports frame line (kind_is_fine kind) }
{
    Clock {
        ports: ports as u32,
        frame: frame as u32,
        slot: 0,
        line: line as u32,
        fine: kind as u32,
    }
}

// Sets the used words to 0 in the runs that both forms have: those of all pairs, and the output that each input was last given.
// Stays (d): ports is at most 32 by the questions of the start that calls this; a type to say so would be made for these calls alone.
pub fn clear_runs(ports: u64, slots: &mut [u32], rates: &mut [u32], runs: &mut TurnRuns<'_>)
    requires ports_in_range { ports ≤ 32 }
    ensures loans { SameTurnRuns runs.old runs.new }
    ensures slots_exit { slots.new ≡ clear_words (ports * ports) slots.old }
    ensures rates_exit { rates.new ≡ clear_words (ports * ports) rates.old }
    ensures credits_exit { runs.new.credits.now ≡ clear_words (ports * ports) runs.old.credits.now }
    ensures queues_exit { runs.new.queues.now ≡ clear_words (ports * ports) runs.old.queues.now }
    ensures given_exit { runs.new.given.now ≡ clear_words ports runs.old.given.now }
{
    let words = (ports * ports) as usize;
    clear_words(slots, words);
    clear_words(rates, words);
    clear_words(runs.credits, words);
    clear_words(runs.queues, words);
    clear_words(runs.given, ports as usize);
}

// Sets to 0 what a pipelined switch has besides: the frame copy, and the rows in flight.
// Stays (d): as clear_runs.
pub fn clear_pipeline(ports: u64, pipeline: &mut PipelineRuns<'_>)
    requires ports_in_range { ports ≤ 32 }
    ensures loans { SamePipelineRuns pipeline.old pipeline.new }
    ensures copy_exit { pipeline.new.copy.now ≡ clear_words (ports * ports) pipeline.old.copy.now }
    ensures flight_exit { pipeline.new.flight.now ≡ clear_words (2 * ports * ports) pipeline.old.flight.now }
{
    clear_words(pipeline.copy, (ports * ports) as usize);
    clear_words(pipeline.flight, (2 * ports * ports) as usize);
}
