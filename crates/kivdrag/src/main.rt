// The event program: it reads standard input in blocks and feeds them to the library, whose output is written to standard output.
#![tactic(auto)]

use events::{KEPT_BYTES, Lent, Progress, begin};
use feeding::{feed_text, input_end, write_heading};
use machine::{FLIGHT_WORDS, PAIR_WORDS, PORT_WORDS, SwitchRuns};
use std::io::Read;
use wsgs::{PipelineRuns, TurnRuns};

// The bytes of a block, and of the output.
const BLOCK_BYTES: usize = 65_536;

// What a read gave; where it gave nothing, which is the end of the input, what ends the input.
fn next_text(progress: Progress, read: &[u8]) -> &[u8] {
    if read.is_empty() {
        input_end(progress)
    } else {
        read
    }
}

// Reads the input in blocks, and feeds them and its end. A read or a write that fails ends the run. Nothing says that an input ends, so the
// blocks are counted up to a number that no run reaches.
// Stays (d): the end is fed by the call that feeds the blocks, and not by `feed_end`: two calls would be two copies of the library, of which
// the compiler inlines neither whole, and an idle tick of one or two ports took 1.6 times the instructions.
fn read_input(input: &mut impl Read, rt: &impl Print, block: &mut [u8], lent: &mut Lent<'_>) {
    let mut progress = begin();
    for _ in 0..u64::MAX {
        let Ok(count) = input.read(block) else {
            return;
        };
        let text = next_text(progress, &block[..count]);
        let fed = feed_text(rt, progress, text, lent);
        if count == 0 || !fed.is_written {
            return;
        }
        progress = fed.progress;
    }
}

fn main(rt: HostRuntime) {
    let block = &mut [0; BLOCK_BYTES];
    let turns = TurnRuns {
        credits: &mut [0; PAIR_WORDS],
        queues: &mut [0; PAIR_WORDS],
        given: &mut [0; PORT_WORDS],
    };
    let pipeline = PipelineRuns {
        copy: &mut [0; PAIR_WORDS],
        flight: &mut [0; FLIGHT_WORDS],
    };
    let runs = SwitchRuns {
        slots: &mut [0; PAIR_WORDS],
        rates: &mut [0; PAIR_WORDS],
        turns,
        pipeline,
    };
    let mut lent = Lent {
        buffer: &mut [0; KEPT_BYTES],
        out: &mut [0; BLOCK_BYTES],
        runs,
    };
    if !write_heading(&rt, lent.out) {
        return;
    }
    read_input(&mut rt.stdin(), &rt, block, &mut lent);
}
