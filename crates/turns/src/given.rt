// The output that each input was last given, in a run with a word for each input.
ghost use Rattle.std.specs.Prelude.{◌≡◌, ◌^◌, ◌≤◌, ◌<◌, length};
ghost use Rattle.wsgs.specs.Words.{port_word, put_port};

use wsgs::{Input, Output};

// The word of an input.
#[tactic(auto, unfolding(wsgs::specs::Words::port_word))]
pub fn last_given(given: &[u32], input: Input) -> u32
    requires some_input { 1 ≤ input.0 }
    requires inside { input.0 ≤ length given.now }
    ensures read { result ≡ port_word given.now input.0 }
{
    given[(input.0 - 1) as usize]
}

// Stays (d): one input and one output are named apart, since the word of the one holds the other; a `Pair` would be made for this call.
//
// An output is given to an input.
#[tactic(auto, unfolding(wsgs::specs::Words::put_port))]
pub fn note_given(given: &mut [u32], input: Input, output: Output)
    requires some_input { 1 ≤ input.0 }
    requires inside { input.0 ≤ length given.old }
    requires output_fits { output.0 < 2 ^ 32 }
    ensures written { given.new ≡ put_port given.old input.0 output.0 }
{
    given[(input.0 - 1) as usize] = output.0 as u32;
}
