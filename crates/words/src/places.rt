// Where words stand in a lent run of N × N words: row i for input i, column j for output j.
ghost use Rattle.std.specs.Prelude.{◌≡◌, ◌+◌, ◌*◌, ◌≤◌};
ghost use Rattle.words.specs.Places.{is_port, row_of, place_of};

use wsgs::{Input, MAX_PORTS, Pair};

// Whether a number is one of the ports, which are at most 32.
#[tactic(auto, unfolding(crate::specs::Places::is_port))]
pub fn is_port(ports: usize, number: u64) -> bool
    ensures tested { result ≡ is_port ports number }
{
    ports as u64 <= MAX_PORTS && (1..=ports as u64).contains(&number)
}

// Where the row of an input begins; 0 where it is no port.
// Stays (a): no Option, since a function that cannot fail may not begin to: row_of and place_of of specs/Places give 0, and callers stand on it.
pub fn row_of(ports: usize, input: Input) -> usize
    ensures row { result ≡ row_of ports input.0 }
    ensures within { result + ports ≤ ports * ports }
{
    if !is_port(ports, input.0) {
        return 0;
    }
    (input.0 - 1) as usize * ports
}

// Where the word of a pair stands; 0 where one of the two is no port.
// Stays (a): as row_of.
pub fn place_of(ports: usize, pair: Pair) -> usize
    ensures place { result ≡ place_of ports pair.input.0 pair.output.0 }
{
    if !is_port(ports, pair.input.0) {
        return 0;
    }
    if !is_port(ports, pair.output.0) {
        return 0;
    }
    row_of(ports, pair.input) + (pair.output.0 - 1) as usize
}
