// The set of free outputs as one word, bit j - 1 for output j.
ghost use Rattle.std.specs.Prelude.{◌≡◌};
ghost use Rattle.turns.specs.Masks.{all_free, is_free, without};

use wsgs::{MAX_PORTS, Output};

// All outputs are free: a bit for each, and from 32 ports on all the bits of a word.
pub fn all_free(ports: usize) -> u32
    ensures mask { result ≡ all_free ports }
{
    if ports >= MAX_PORTS as usize {
        return u32::MAX;
    }
    (1 << ports) - 1
}

// Whether an output is free: its bit is set. An output past 32 has none, nor has output 0.
pub fn is_free(free: u32, output: Output) -> bool
    ensures tested { result ≡ is_free free output.0 }
{
    if output.0 < 1 {
        return false;
    }
    if output.0 > MAX_PORTS {
        return false;
    }
    (free >> (output.0 - 1)) & 1 == 1
}

// The free outputs without one that is taken: its bit is cleared.
pub fn take(free: u32, output: Output) -> u32
    ensures cleared { result ≡ without free output.0 }
{
    if output.0 < 1 {
        return free;
    }
    if output.0 > MAX_PORTS {
        return free;
    }
    free & !(1 << (output.0 - 1))
}
