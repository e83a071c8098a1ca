// What a pair that is served costs: a packet, and by pass one a credit. A word that is 0 stays 0.
ghost use Rattle.std.specs.Prelude.{◌≡◌, ◌-◌, ◌*◌, ◌≤◌, ◌<◌, length};
ghost use Rattle.wsgs.specs.Words.{place, less_one};
ghost use Rattle.turns.specs.Charges.{PairOf};

use words::places::row_of;
use wsgs::{Credits, Input, Output};

// Stays (d): input and output come from the turn, which has them apart; `PairOf` in the clause says of both that they are ports.
//
// Where the word of a pair of ports stands.
fn place(ports: usize, input: Input, output: Output) -> usize
    requires pair { PairOf ports input.0 output.0 }
    ensures place { result ≡ place ports input.0 output.0 }
    ensures within { result < ports * ports }
{
    row_of(ports, input) + (output.0 - 1) as usize
}

// Stays (d): `words::places::place_of` would ask again whether both are ports, which a turn knows of them.
//
// The pair's queue falls by 1.
pub fn take_packet(queues: &mut [u32], ports: usize, input: Input, output: Output)
    requires pair { PairOf ports input.0 output.0 }
    requires queues_fit { ports * ports ≤ length queues.old }
    ensures less { queues.new ≡ less_one ports queues.old input.0 output.0 }
{
    let at = place(ports, input, output);
    queues[at] = queues[at].saturating_sub(1);
}

// One credit is spent. Where there is none, none is left.
fn spend(left: Credits) -> Credits
    ensures less { result.0 ≡ left.0 - 1 }
{
    Credits(left.0.saturating_sub(1))
}

// Stays (a): a rule of the project has credits as a tuple struct, so they fall by `spend` and packets by a number.
//
// The pair's credits fall by 1.
pub fn spend_credit(credits: &mut [u32], ports: usize, input: Input, output: Output)
    requires pair { PairOf ports input.0 output.0 }
    requires credits_fit { ports * ports ≤ length credits.old }
    ensures less { credits.new ≡ less_one ports credits.old input.0 output.0 }
{
    let at = place(ports, input, output);
    let left = Credits(credits[at]);
    credits[at] = spend(left).0;
}
