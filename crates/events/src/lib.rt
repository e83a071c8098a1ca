// The event program's library: records in, lines out, on lent slices.
#![tactic(auto)]

mod bytes;
mod steps;

ghost use Rattle.std.specs.Prelude.{◌≡◌, length};
ghost use Rattle.events.specs.Feeding.{has_work, fed};
ghost use Rattle.events.specs.View.{lent_state, SameLent, feed_effect_of, feed_effect, first_progress};

use lines::SLOT_ROOM;
use machine::{Machine, SwitchRuns};
use records::MAX_RECORD;
use steps::step;
use wsgs::{Clock, Form};

// The bytes that are kept of a record, one more than the longest that can be read has; and the most that are counted.
pub const KEPT_BYTES: usize = MAX_RECORD + 1;

const MAX_COUNT: usize = KEPT_BYTES + 1;

// What the program is lent: a buffer for the record so far, the output, and the runs of a switch.
#[derive(Drop)]
pub struct Lent<'a> {
    pub buffer: &'a mut [u8],
    pub out: &'a mut [u8],
    pub runs: SwitchRuns<'a>,
}

// What is kept between two bytes beside what is lent: the machine, whether the heading is past, whether the last byte of the record so far
// is a CR, how many bytes it has, counted up to 66, and the slots of a tick record that are still to run.
// Stays (a): these are the fields of `State` in the clauses. Neither flag tells whether another value is there, and the count goes past the
// bytes that the lent buffer keeps.
#[derive(Clone, Copy)]
pub struct Progress {
    pub machine: Machine,
    pub past_heading: bool,
    pub after_cr: bool,
    pub count: usize,
    pub slots_left: u64,
}

// What a call of `feed` answers, and a step of it: what is kept, how many bytes of the block are taken, and how many are written into the
// output.
// Stays (a): the clauses of `feed` tell both numbers of slices that its caller keeps. `feeding::TextResult` tells other things.
#[derive(Clone, Copy)]
pub struct FeedResult {
    pub progress: Progress,
    pub taken: usize,
    pub written: usize,
}

// What the program keeps at its beginning.
pub fn begin() -> Progress
    ensures progress { result ≡ first_progress }
{
    let clock = Clock {
        ports: 0,
        frame: 0,
        slot: 0,
        line: 0,
        fine: 0,
    };
    Progress {
        machine: Machine {
            running: false,
            form: Form::Direct,
            clock,
        },
        past_heading: false,
        after_cr: false,
        count: 0,
        slots_left: 0,
    }
}

// Whether `feed` has something to do: a slot to run or one of so many bytes to take, a buffer that holds the bytes that are kept of a record,
// and room for what a step may print.
pub fn has_work(progress: Progress, bytes: usize, buffer: usize, room: usize) -> bool
    ensures answer { result ≡ has_work progress.slots_left bytes buffer room }
{
    let is_left = progress.slots_left > 0 || bytes > 0;
    is_left && buffer >= KEPT_BYTES && room >= SLOT_ROOM
}

// Feeds the program a block: takes bytes and runs slots while what they may print has room in the output.
// Stays (d): each step takes and writes what the step before left, so no iterator counts the steps.
#[inline(always)]
pub fn feed(progress: Progress, block: &[u8], lent: &mut Lent<'_>) -> FeedResult
    ensures loans { SameLent lent.old lent.new }
    ensures outcome { feed_effect_of result lent.new
        ≡ feed_effect (fed (length lent.old.out.now) block.now (lent_state progress lent.old))
        lent.old.out.now }
{
    let mut fed = FeedResult {
        progress,
        taken: 0,
        written: 0,
    };
    while has_work(
        fed.progress,
        block.len() - fed.taken,
        lent.buffer.len(),
        lent.out.len() - fed.written,
    ) {
        let out = &mut *lent.out;
        let next = step(
            fed.progress,
            &block[fed.taken..],
            lent.buffer,
            &mut out[fed.written..],
            &mut lent.runs,
        );
        fed = FeedResult {
            progress: next.progress,
            taken: fed.taken + next.taken,
            written: fed.written + next.written,
        };
    }
    fed
}
