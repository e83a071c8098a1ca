// A stored random trace, fed to the event program's library in pieces of a few bytes, so that every readable record is cut, and with an output
// that holds little more than one slot may print, so that ticks are cut too. tools/stored_trace makes `stdin`, and the second program `stdout`.
#![tactic(auto)]

ghost use Rattle.std.specs.Prelude.{◌≤◌, length};

use events::{KEPT_BYTES, Lent, Progress, begin};
use feeding::{feed_end, feed_text, write_heading};
use machine::{FLIGHT_WORDS, PAIR_WORDS, PORT_WORDS, SwitchRuns};
use std::io;
use std::io::Read;
use wsgs::{PipelineRuns, TurnRuns};

// The bytes of the longest input, and one more.
const INPUT_BYTES: usize = 65_536;

// The bytes of an output that holds the lines of a slot and little more.
const OUTPUT_BYTES: usize = 3_000;

// Feeds the input in pieces of 1 to 5 bytes, as their places have it, and gives what is kept at its end, if its output could be written.
// Stays (d): the pieces have lengths of their own, which no method of a slice cuts.
fn feed_pieces(rt: &impl Print, input: &[u8], lent: &mut Lent<'_>) -> Option<Progress> {
    let mut progress = begin();
    let mut rest = input;
    while !rest.is_empty() {
        let place = input.len() - rest.len();
        let length = rest.len().min(place % 5 + 1);
        let (piece, after) = rest.split_at(length);
        let fed = feed_text(rt, progress, piece, lent);
        if !fed.is_written {
            return None;
        }
        progress = fed.progress;
        rest = after;
    }
    Some(progress)
}

// Runs the input on a switch of its own, between the heading and the end.
fn run_input(rt: &impl Print, input: &[u8]) {
    let turns = TurnRuns {
        credits: &mut [0; PAIR_WORDS],
        queues: &mut [0; PAIR_WORDS],
        given: &mut [0; PORT_WORDS],
    };
    let pipeline = PipelineRuns {
        copy: &mut [0; PAIR_WORDS],
        flight: &mut [0; FLIGHT_WORDS],
    };
    let runs = SwitchRuns {
        slots: &mut [0; PAIR_WORDS],
        rates: &mut [0; PAIR_WORDS],
        turns,
        pipeline,
    };
    let mut lent = Lent {
        buffer: &mut [0; KEPT_BYTES],
        out: &mut [0; OUTPUT_BYTES],
        runs,
    };
    if !write_heading(rt, lent.out) {
        return;
    }
    if let Some(progress) = feed_pieces(rt, input, &mut lent) {
        feed_end(rt, progress, &mut lent);
    }
}

// Reads until a buffer is full, the input ends or a read fails, and gives how many bytes it put at the front of the buffer.
// Stays (a): std's `read_to_end` puts the input on the heap, and this project has none; its `read_exact` wants a full buffer.
fn read_full(from: &mut impl Read, buf: &mut [u8]) -> usize
    ensures within { result ≤ length buf.new }
{
    let mut done = 0;
    while done < buf.len() {
        let count = from.read(&mut buf[done..]).unwrap_or(0);
        if count == 0 {
            return done;
        }
        done += count;
    }
    done
}

fn main(rt: HostRuntime) -> io::Result<()> {
    let mut input = [0u8; INPUT_BYTES];
    let count = read_full(&mut rt.stdin(), &mut input);
    if count == input.len() {
        return rt.write_all(b"trace_test: the input does not fit\r\n");
    }
    run_input(&rt, &input[..count]);
    Ok(())
}
