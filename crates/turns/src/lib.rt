// An input's turn, in either pass: a sweep of its row tells what it asks for, the search gives the first open output in turn, and the input pays. An input
// that is no port, more than 32 ports, or a run that is too short has no turn: nothing is asked for, nothing is looked at, and nothing changes.
#![tactic(auto)]

mod given;
pub mod masks;
mod payments;
mod search;
mod sweep;

ghost use Rattle.std.specs.Prelude.{◌≡◌};
ghost use Rattle.wsgs.specs.Told.{SameTurnRuns};
ghost use Rattle.turns.specs.Requests.{first_requested, second_requested, first_output, second_output, first_looks, second_looks};
ghost use Rattle.turns.specs.Charges.{output_told, HasNumber, charged, noted};

use given::{last_given, note_given};
use payments::{spend_credit, take_packet};
use search::choose;
use sweep::{has_credit, has_turn, ready_in, turn_row};
use wsgs::{Input, Output, TurnRuns};

// Stays (a): the runs are only read, so this asks for shared slices, as before: `TurnRuns` would ask its callers for them as `&mut`, and for a run that
// is not read. (d): pass one asks for credits first and does not read the queues where there is none; pass two has no credits. A function of both would
// take an Option of credits and begin with its two arms, which are these.
//
// What an input asks for at its turn of pass one: the outputs for which it has a credit and a packet. An input
// without a credit asks for nothing, and its queues are not read.
pub fn first_requests(ports: usize, input: Input, credits: &[u32], queues: &[u32]) -> u32
    ensures asked { result ≡ first_requested ports input.0 credits.now queues.now }
{
    let Some(row) = turn_row(ports, input, credits.len()) else {
        return 0;
    };
    if !has_turn(ports, input, queues.len()) {
        return 0;
    }
    if !has_credit(ports, row, credits) {
        return 0;
    }
    ready_in(ports, row, credits, queues)
}

// Stays (d): as `first_requests`.
//
// What it asks for at its turn of pass two: the outputs for which it has a packet.
pub fn second_requests(ports: usize, input: Input, queues: &[u32]) -> u32
    ensures asked { result ≡ second_requested ports input.0 queues.now }
{
    let Some(row) = turn_row(ports, input, queues.len()) else {
        return 0;
    };
    ready_in(ports, row, queues, queues)
}

// What a turn gives: the output that the input takes, if it takes one, and the count of looks.
#[derive(Clone, Copy)]
pub struct Choice {
    pub output: Option<Output>,
    pub looks: u32,
}

// Stays (a): pass two is lent no credits (`kivdrag_test_second_turn`, which C calls), so this takes the two runs and not `TurnRuns`. Pass one is this turn
// and a credit, and calls it.
//
// A turn of pass two that asks for some outputs: it costs a packet, and what the input takes becomes its last given output.
pub fn second_turn(
    free: u32,
    asked: u32,
    ports: usize,
    input: Input,
    queues: &mut [u32],
    given: &mut [u32],
) -> Choice
    ensures some { HasNumber result.output }
    ensures output { output_told result.output
        ≡ second_output free asked ports input.0 queues.old given.old }
    ensures looks { result.looks
        ≡ second_looks free asked ports input.0 queues.old given.old }
    ensures queues_exit { queues.new ≡ charged ports queues.old input.0 (output_told result.output) }
    ensures given_exit { given.new ≡ noted given.old input.0 (output_told result.output) }
{
    if !has_turn(ports, input, queues.len()) || given.len() < ports {
        return Choice {
            output: None,
            looks: 0,
        };
    }
    let last = last_given(given, input);
    let choice = choose(free, asked, ports, last);
    if let Some(output) = choice.output {
        take_packet(queues, ports, input, output);
        note_given(given, input, output);
    }
    choice
}

// Stays (a): as `second_turn`.
//
// A turn of pass one that asks for some outputs: it costs a credit besides.
pub fn first_turn(
    free: u32,
    asked: u32,
    ports: usize,
    input: Input,
    runs: &mut TurnRuns<'_>,
) -> Choice
    ensures loans { SameTurnRuns runs.old runs.new }
    ensures some { HasNumber result.output }
    ensures output { output_told result.output
        ≡ first_output free asked ports input.0
        runs.old.credits.now runs.old.queues.now runs.old.given.now }
    ensures looks { result.looks
        ≡ first_looks free asked ports input.0
        runs.old.credits.now runs.old.queues.now runs.old.given.now }
    ensures credits_exit { runs.new.credits.now
        ≡ charged ports runs.old.credits.now input.0 (output_told result.output) }
    ensures queues_exit { runs.new.queues.now
        ≡ charged ports runs.old.queues.now input.0 (output_told result.output) }
    ensures given_exit { runs.new.given.now
        ≡ noted runs.old.given.now input.0 (output_told result.output) }
{
    if !has_turn(ports, input, runs.credits.len()) {
        return Choice {
            output: None,
            looks: 0,
        };
    }
    let choice = second_turn(free, asked, ports, input, runs.queues, runs.given);
    if let Some(output) = choice.output {
        spend_credit(runs.credits, ports, input, output);
    }
    choice
}
