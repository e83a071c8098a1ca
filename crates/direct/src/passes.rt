// The two passes of a slot of the direct form.
ghost use Rattle.std.specs.Prelude.{◌≡◌, ◌*◌, ◌≤◌, ltb, length};
ghost use Rattle.wsgs.specs.Steps.{marked};
ghost use Rattle.wsgs.specs.Direct.{spent};
ghost use Rattle.wsgs.specs.Told.{SameTurnRuns};
ghost use Rattle.direct.specs.Passes.{QueuesFit, PassState, ones, PassTwo};

use turns::masks::{all_free, take};
use turns::{first_requests, first_turn, second_requests, second_turn};
use wsgs::{Input, Served, TurnRuns};

// What a pass leaves: the outputs that are free, and the pairs so far.
#[derive(Clone, Copy)]
pub struct PassResult {
    pub free: u32,
    pub served: Served,
}

// Stays (d), of both loops: they go over the inputs, whose number each turn takes; the answer's byte is written in one of a turn's two ways alone.
//
// Pass one: the inputs in turn, each with the first in its order of the free outputs for which it has a credit and a packet.
pub fn pass_one(ports: usize, runs: &mut TurnRuns<'_>) -> PassResult
    requires credits_fit { ports * ports ≤ length runs.old.credits.now }
    requires queues_fit { QueuesFit ports runs.old.queues.now runs.old.given.now }
    ensures loans { SameTurnRuns runs.old runs.new }
    ensures queues_fit { QueuesFit ports runs.new.queues.now runs.new.given.now }
    ensures state { PassState ports runs.old.queues.now runs.old.given.now
        (ones ports runs.old.credits.now runs.old.queues.now runs.old.given.now)
        result.free result.served.outputs runs.new.queues.now runs.new.given.now }
    ensures first_pass { result.served.first_pass
        ≡ marked 32 (λ i. ltb 0 (ones ports runs.old.credits.now runs.old.queues.now runs.old.given.now i)) }
    ensures credits_exit { runs.new.credits.now
        ≡ spent ports runs.old.credits.now
        (ones ports runs.old.credits.now runs.old.queues.now runs.old.given.now) ports }
{
    let mut free = all_free(ports);
    let mut outputs = [0u8; 32];
    let mut first_pass = 0u32;
    for row in 0..ports {
        let input = Input(row as u64 + 1);
        // `&mut *`, though the runs are only read: two fields behind a `&mut` that are lent as `&` at once have no proof in this kit.
        let asked = first_requests(ports, input, &mut *runs.credits, &mut *runs.queues);
        let choice = first_turn(free, asked, ports, input, runs);
        if let Some(output) = choice.output {
            free = take(free, output);
            outputs[row] = output.0 as u8;
            first_pass |= 1 << row;
        }
    }
    PassResult {
        free,
        served: Served {
            outputs,
            first_pass,
        },
    }
}

// Stays (d): as `pass_one`; and pass two is lent no credits, so it takes the two runs that it changes and not `TurnRuns`.
//
// Pass two: the inputs in turn that pass one did not serve, each with the first in its order of the free outputs for which it has a packet.
pub fn pass_two(
    passed: PassResult,
    ports: usize,
    queues: &mut [u32],
    given: &mut [u32],
) -> PassResult
    requires queues_fit { QueuesFit ports queues.old given.old }
    ensures pass_two { PassTwo ports passed.free passed.served.outputs queues.old given.old
        result.free result.served.outputs queues.new given.new }
    ensures first_pass { result.served.first_pass ≡ passed.served.first_pass }
{
    let mut free = passed.free;
    let mut outputs = passed.served.outputs;
    for row in 0..ports {
        if outputs[row] > 0 {
            continue;
        }
        let input = Input(row as u64 + 1);
        let asked = second_requests(ports, input, queues);
        let choice = second_turn(free, asked, ports, input, queues, given);
        if let Some(output) = choice.output {
            free = take(free, output);
            outputs[row] = output.0 as u8;
        }
    }
    PassResult {
        free,
        served: Served {
            outputs,
            first_pass: passed.served.first_pass,
        },
    }
}
