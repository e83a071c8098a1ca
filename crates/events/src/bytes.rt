// A byte of the input: one more of the record so far, or the end of the record.
// Stays (a): `State` of the clauses has the whole lent buffer, of any length from 65 on, so each function here tells the length that it needs.
// Buffer, output and runs come apart, since a step is given what is left of the output, and `Lent` has the whole of it.
ghost use Rattle.std.specs.Prelude.{◌≡◌, ◌+◌, ◌≤◌, ltb, length, set};
ghost use Rattle.wsgs.specs.Basics.{pick};
ghost use Rattle.lines.specs.Lines.{refusal_room};
ghost use Rattle.machine.specs.declared.SwitchRuns.{SwitchRuns};
ghost use Rattle.machine.specs.View.{SameSwitchRuns};
ghost use Rattle.events.specs.Feeding.{kept_bytes, most_counted, appended, record_end, byte_step};
ghost use Rattle.events.specs.View.{state_of, ended_progress, StepWritten};

use crate::{FeedResult, KEPT_BYTES, MAX_COUNT, Progress};
use lines::refusal_line;
use machine::{Machine, SwitchRuns, obey};
use records::read_record;

impl Progress {
    // What is kept where a record has ended.
    fn ended(machine: Machine, slots_left: u64) -> Progress
        ensures progress { result ≡ ended_progress machine slots_left }
    {
        Progress {
            machine,
            past_heading: true,
            after_cr: false,
            count: 0,
            slots_left,
        }
    }
}

// The end of a record: the heading is passed over, and any other record is obeyed.
fn end_record(
    progress: Progress,
    buffer: &[u8],
    out: &mut [u8],
    runs: &mut SwitchRuns<'_>,
) -> FeedResult
    requires buffer { kept_bytes ≤ length buffer.now }
    requires room { refusal_room ≤ length out.old }
    ensures loans { SameSwitchRuns runs.old runs.new }
    ensures taken { result.taken ≡ 1 }
    ensures outcome { StepWritten (record_end (state_of progress buffer.now runs.old))
        (state_of result.progress buffer.now runs.new) out.old 0 result.written out.new }
{
    let machine = progress.machine;
    if !progress.past_heading {
        return FeedResult {
            progress: Progress::ended(machine, 0),
            taken: 1,
            written: 0,
        };
    }
    let kept = progress.count.saturating_sub(1).min(KEPT_BYTES);
    let reading = read_record(machine.running, &buffer[..kept]);
    let obeyed = obey(machine, reading.map_err(u32::from), runs);
    let outcome = obeyed.outcome;
    FeedResult {
        progress: Progress::ended(obeyed.machine, outcome.unwrap_or(0)),
        taken: 1,
        written: refusal_line(out, outcome.err()),
    }
}

// Keeps a byte of the record so far, if it is one of the first 65.
// Stays (a): the buffer is the caller's, and is lent anew to each call of `feed`: what is kept between calls is the count.
fn keep(buffer: &mut [u8], count: usize, byte: u8)
    requires buffer { kept_bytes ≤ length buffer.old }
    ensures buffer_exit { buffer.new
        ≡ pick (ltb count kept_bytes) (set buffer.old count byte) buffer.old }
{
    if count < KEPT_BYTES {
        buffer[count] = byte;
    }
}

// Counts a byte more, up to 66.
fn counted(count: usize) -> usize
    ensures count { result ≡ pick (ltb count most_counted) (count + 1) count }
{
    if count < MAX_COUNT { count + 1 } else { count }
}

// A byte more of the record so far.
fn append(progress: Progress, byte: u8, buffer: &mut [u8]) -> Progress
    requires buffer { kept_bytes ≤ length buffer.old }
    ensures state { (r : SwitchRuns)
        → state_of result buffer.new r ≡ appended (state_of progress buffer.old r) byte }
{
    keep(buffer, progress.count, byte);
    Progress {
        after_cr: byte == b'\r',
        count: counted(progress.count),
        ..progress
    }
}

// A byte.
#[inline(always)]
pub fn take_byte(
    progress: Progress,
    byte: u8,
    buffer: &mut [u8],
    out: &mut [u8],
    runs: &mut SwitchRuns<'_>,
) -> FeedResult
    requires buffer { kept_bytes ≤ length buffer.old }
    requires room { refusal_room ≤ length out.old }
    ensures loans { SameSwitchRuns runs.old runs.new }
    ensures taken { result.taken ≡ 1 }
    ensures outcome { StepWritten (byte_step (state_of progress buffer.old runs.old) byte)
        (state_of result.progress buffer.new runs.new) out.old 0 result.written out.new }
{
    if progress.after_cr && byte == b'\n' {
        return end_record(progress, buffer, out, runs);
    }
    FeedResult {
        progress: append(progress, byte, buffer),
        taken: 1,
        written: 0,
    }
}
