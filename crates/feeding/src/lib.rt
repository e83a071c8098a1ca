// Texts fed to the event program's library, whose output is written to standard output between its calls. No contract can say what the
// system takes: the result tells whether it took all.
#![tactic(auto)]

ghost use Rattle.std.specs.Prelude.{◌≡◌, ◌≤◌, List, ℕ, length};
ghost use Rattle.wsgs.specs.Text.{heading};
ghost use Rattle.lines.specs.Lines.{heading_room, put_effect};
ghost use Rattle.machine.specs.declared.SwitchRuns.{SwitchRuns};
ghost use Rattle.events.specs.Feeding.{ending};
ghost use Rattle.events.specs.View.{state_of, lent_state, SameLent};
ghost use Rattle.feeding.specs.Texts.{text_begun, text_state_of, next_call, TextFed};

use events::{Lent, Progress, feed, has_work};
use lines::heading_line;

// What feeding a text leaves: what is kept, how many bytes of the text are taken, and whether all that was printed could be written.
// Stays (d): what is kept and taken holds of a text that could not be written too, so a Result would hold them on both sides.
#[derive(Clone, Copy)]
pub struct TextResult {
    pub progress: Progress,
    pub taken: usize,
    pub is_written: bool,
}

// Writes the front of a buffer to standard output, and tells whether it could.
// Stays (d): the cut may fail for all that a contract tells (`get`), and stands once for both callers.
fn write_front(rt: &impl Print, out: &[u8], count: usize) -> bool {
    match out.get(..count) {
        Some(front) => rt.write_all(front).is_ok(),
        None => false,
    }
}

// Writes the heading, by way of a lent output.
pub fn write_heading(rt: &impl Print, out: &mut [u8]) -> bool
    ensures output { out.new ≡ (put_effect heading_room heading out.old).words }
{
    let count = heading_line(out);
    write_front(rt, out, count)
}

// One call of the library on the rest of a text.
#[inline(always)]
fn feed_rest(rt: &impl Print, fed: TextResult, text: &[u8], lent: &mut Lent<'_>) -> TextResult
    requires taken { fed.taken ≤ length text.now }
    ensures loans { SameLent lent.old lent.new }
    ensures outcome { text_state_of result lent.new ≡ next_call text.now (text_state_of fed lent.old) }
{
    let from = fed.taken;
    let result = feed(fed.progress, &text[from..], lent);
    let out = &mut *lent.out;
    TextResult {
        progress: result.progress,
        taken: from + result.taken,
        is_written: write_front(rt, out, result.written),
    }
}

// Feeds a whole text, or as far as its output can be written. A buffer or an output that is too short for `feed` leaves all as it is.
// Stays (d): each call takes what the call before left, so no iterator counts the calls.
// Inlined, so that the program's `Lent` is no place in memory and the lengths of its runs are constants: as a call it made an idle tick of one or
// two ports take 1.4 times the instructions. What it calls for each step and byte is inlined too, without which a byte takes an eighth more.
#[inline(always)]
pub fn feed_text(
    rt: &impl Print,
    progress: Progress,
    text: &[u8],
    lent: &mut Lent<'_>,
) -> TextResult
    ensures loans { SameLent lent.old lent.new }
    ensures outcome { TextFed text.now (text_begun progress lent.old)
        (text_state_of result lent.new) result.is_written }
{
    let mut fed = TextResult {
        progress,
        taken: 0,
        is_written: true,
    };
    while fed.is_written
        && has_work(
            fed.progress,
            text.len() - fed.taken,
            lent.buffer.len(),
            lent.out.len(),
        )
    {
        fed = feed_rest(rt, fed, text, lent);
    }
    fed
}

// What ends the input: CR LF, where its last record lacks them.
pub fn input_end(progress: Progress) -> &'static [u8]
    ensures end { (b : List ℕ) (r : SwitchRuns) → result.now ≡ ending (state_of progress b r) }
{
    if progress.count == 0 { b"" } else { b"\r\n" }
}

// Feeds the end of the input.
pub fn feed_end(rt: &impl Print, progress: Progress, lent: &mut Lent<'_>) -> TextResult
    ensures loans { SameLent lent.old lent.new }
    ensures outcome { TextFed (ending (lent_state progress lent.old)) (text_begun progress lent.old)
        (text_state_of result lent.new) result.is_written }
{
    let end = input_end(progress);
    feed_text(rt, progress, end, lent)
}
