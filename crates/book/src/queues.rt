// Queues: whether one can take what arrives.
ghost use Rattle.std.specs.Prelude.{◌≡◌, ◌≤◌};
ghost use Rattle.wsgs.specs.Told.{refusal_number};
ghost use Rattle.book.specs.Refusals.{queue_refusal, PairFits};

use crate::pairs::word_of;
use wsgs::{MAX_QUEUE, Pair, Refused};

// Whether a pair's queue can take so many packets more: question 11.
// Stays (d): on `PairFits` in the clause see pairs.rt.
pub fn check_queue(ports: usize, queues: &[u32], pair: Pair, packets: u64) -> Result<(), Refused>
    requires pair_fits { PairFits ports queues.now pair.input.0 pair.output.0 }
    requires packets_in_range { packets ≤ 65535 }
    ensures refusal { refusal_number result ≡ queue_refusal ports queues.now pair.input.0 pair.output.0 packets }
{
    let waiting = word_of(ports, queues, pair) as u64 + packets;
    if waiting > MAX_QUEUE {
        return Err(Refused::Queue);
    }
    Ok(())
}
