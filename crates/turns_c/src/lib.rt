// An input's turn as C has it, for the comparison with the second program alone: it is no part of the library for C. crates/turns_c_c exports
// both turns.
// Stays (a): compare/tests/turn_calls/mod.rs calls these by name, with these signatures: numbers for outputs, runs as slices of their own, a call for each pass.
#![tactic(auto)]

ghost use Rattle.std.specs.Prelude.{◌≡◌};
ghost use Rattle.turns.specs.Requests.{first_requested, second_requested, first_output, second_output, first_looks, second_looks};
ghost use Rattle.turns.specs.Charges.{output_told, charged, noted};

use turns::{first_requests, first_turn, second_requests, second_turn};
use wsgs::{Input, Output, TurnRuns};

// The number of an output as C has it, 0 for none.
fn number(output: Option<Output>) -> u64
    ensures result { result ≡ output_told output }
{
    output.map_or(0, |output| output.0)
}

// A turn of pass one: the output, 0 for none. The count of looks is written.
pub fn kivdrag_test_first_turn(
    free: u32,
    ports: usize,
    input: u64,
    credits: &mut [u32],
    queues: &mut [u32],
    given: &mut [u32],
    looks: &mut u32,
) -> u64
    ensures output { result
        ≡ first_output free (first_requested ports input credits.old queues.old)
        ports input credits.old queues.old given.old }
    ensures looks_exit { looks.new
        ≡ first_looks free (first_requested ports input credits.old queues.old)
        ports input credits.old queues.old given.old }
    ensures credits_exit { credits.new ≡ charged ports credits.old input result }
    ensures queues_exit { queues.new ≡ charged ports queues.old input result }
    ensures given_exit { given.new ≡ noted given.old input result }
{
    let asked = first_requests(ports, Input(input), credits, queues);
    let mut runs = TurnRuns {
        credits,
        queues,
        given,
    };
    let choice = first_turn(free, asked, ports, Input(input), &mut runs);
    *looks = choice.looks;
    number(choice.output)
}

// A turn of pass two.
pub fn kivdrag_test_second_turn(
    free: u32,
    ports: usize,
    input: u64,
    queues: &mut [u32],
    given: &mut [u32],
    looks: &mut u32,
) -> u64
    ensures output { result
        ≡ second_output free (second_requested ports input queues.old) ports input queues.old given.old }
    ensures looks_exit { looks.new
        ≡ second_looks free (second_requested ports input queues.old) ports input queues.old given.old }
    ensures queues_exit { queues.new ≡ charged ports queues.old input result }
    ensures given_exit { given.new ≡ noted given.old input result }
{
    let asked = second_requests(ports, Input(input), queues);
    let choice = second_turn(free, asked, ports, Input(input), queues, given);
    *looks = choice.looks;
    number(choice.output)
}
