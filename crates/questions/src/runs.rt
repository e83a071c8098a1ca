// Whether the lent runs of a form are long enough for the words of so many ports.
ghost use Rattle.std.specs.Prelude.{◌≡◌, ◌≤◌};
ghost use Rattle.wsgs.specs.Answers.{direct_runs_of, pipelined_runs_of};
ghost use Rattle.wsgs.specs.Direct;
ghost use Rattle.wsgs.specs.Pipelined;

use crate::{holds_book, holds_pairs, holds_ports};
use wsgs::BookRuns;

// Whether the runs of a direct switch are long enough.
// Stays (a): the runs are only read, so shared slices are asked for, as before; (d): no twin of pipelined_runs_suffice, which asks this and two runs more.
pub fn direct_runs_suffice(
    ports: u64,
    book: BookRuns<'_>,
    credits: &[u32],
    queues: &[u32],
    given: &[u32],
) -> bool
    ensures result { result ≡ Direct.runs_suffice ports
        (direct_runs_of book.entry.slots.now book.entry.rates.now credits.now queues.now given.now) }
{
    holds_book(ports, book)
        && holds_pairs(ports, credits)
        && holds_pairs(ports, queues)
        && holds_ports(ports, given)
}

// Whether those of a pipelined switch are.
// Stays (a): as direct_runs_suffice; (d): ports is at most 32 by the question before, at the one call; a type to say so would be made for that call alone.
pub fn pipelined_runs_suffice(
    ports: u64,
    book: BookRuns<'_>,
    credits: &[u32],
    queues: &[u32],
    given: &[u32],
    copy: &[u32],
    flight: &[u32],
) -> bool
    requires ports_in_range { ports ≤ 32 }
    ensures result { result ≡ Pipelined.runs_suffice ports
        (pipelined_runs_of book.entry.slots.now book.entry.rates.now credits.now queues.now
        given.now copy.now flight.now) }
{
    direct_runs_suffice(ports, book, credits, queues, given)
        && holds_pairs(ports, copy)
        && (2 * ports * ports) as usize <= flight.len()
}
