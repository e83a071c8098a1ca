// The word of a pair, read, written, raised and lowered.
// Stays (d): that a run holds the pair (`PairFits`) is said of two arguments here and in `check_held` and `check_queue`. A struct of both with a ghost
// field would be built at each call for one read or write, and twice, over `&[u32]` and over `&mut [u32]`.
ghost use Rattle.std.specs.Prelude.{◌≡◌, ◌+◌, ◌-◌, ◌^◌, ◌≤◌, ◌<◌};
ghost use Rattle.wsgs.specs.Words.{word, put};
ghost use Rattle.book.specs.Refusals.{PairFits};

use words::places::place_of;
use wsgs::Pair;

// The word of a pair.
pub fn word_of(ports: usize, run: &[u32], pair: Pair) -> u32
    requires pair_fits { PairFits ports run.now pair.input.0 pair.output.0 }
    ensures result { result ≡ word ports run.now pair.input.0 pair.output.0 }
{
    run[place_of(ports, pair)]
}

// Writes the word of a pair.
pub fn put_word(ports: usize, run: &mut [u32], pair: Pair, new: u32)
    requires pair_fits { PairFits ports run.old pair.input.0 pair.output.0 }
    ensures run_exit { run.new ≡ put ports run.old pair.input.0 pair.output.0 new }
{
    run[place_of(ports, pair)] = new;
}

// Adds to the word of a pair.
// Stays (d): one function for this and the next would take the sum or the difference as a closure at each of its five calls, `|held| held + ..`,
// which is longer than the name.
pub fn add_to_word(ports: usize, run: &mut [u32], pair: Pair, amount: u64)
    requires pair_fits { PairFits ports run.old pair.input.0 pair.output.0 }
    requires sum_fits { word ports run.old pair.input.0 pair.output.0 + amount < 2 ^ 32 }
    ensures run_exit { run.new ≡ put ports run.old pair.input.0 pair.output.0
        (word ports run.old pair.input.0 pair.output.0 + amount) }
{
    let held = word_of(ports, run, pair) as u64;
    put_word(ports, run, pair, (held + amount) as u32);
}

// Takes off the word of a pair.
pub fn take_off_word(ports: usize, run: &mut [u32], pair: Pair, amount: u64)
    requires pair_fits { PairFits ports run.old pair.input.0 pair.output.0 }
    requires held { amount ≤ word ports run.old pair.input.0 pair.output.0 }
    ensures run_exit { run.new ≡ put ports run.old pair.input.0 pair.output.0
        (word ports run.old pair.input.0 pair.output.0 - amount) }
{
    let held = word_of(ports, run, pair);
    put_word(ports, run, pair, held - amount as u32);
}
