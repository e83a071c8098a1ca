// The lines that the event program prints, put at the front of a lent buffer. A buffer without the room that such a text may need is left
// alone, and 0 bytes are put.
#![tactic(auto)]

mod printer;

ghost use Rattle.std.specs.Prelude.{◌≡◌, ◌≤◌, length};
ghost use Rattle.wsgs.specs.Answers.{matching_of};
ghost use Rattle.wsgs.specs.Questions.{effect};
ghost use Rattle.wsgs.specs.Text.{heading};
ghost use Rattle.wsgs.specs.Told.{refusal_told};
ghost use Rattle.wsgs.specs.Program.{refusal_text, match_lines};
ghost use Rattle.lines.specs.Lines.{put_effect, heading_room, refusal_room, slot_room};

use printer::Printer;
use wsgs::{RefusalLine, Served};

// The room in bytes that the heading, a refusal's line and the lines of a slot may need.
pub const HEADING_ROOM: usize = 31;

pub const REFUSAL_ROOM: usize = 93;

pub const SLOT_ROOM: usize = 2_912;

// The heading.
pub fn heading_line(out: &mut [u8]) -> usize
    ensures outcome { effect result out.new ≡ put_effect heading_room heading out.old }
{
    if out.len() < HEADING_ROOM {
        return 0;
    }
    let mut printer = Printer::new(out);
    printer.put(b"kind,slot,input,output,detail\r\n");
    printer.count
}

// A refusal's line, if there is a refusal. Number 0 is none.
pub fn refusal_line(out: &mut [u8], refusal: Option<RefusalLine>) -> usize
    ensures outcome { effect result out.new
        ≡ put_effect refusal_room (refusal_text (refusal_told refusal)) out.old }
{
    if out.len() < REFUSAL_ROOM {
        return 0;
    }
    let Some(line) = refusal else {
        return 0;
    };
    if line.number == 0 {
        return 0;
    }
    let number = u64::from(line.number);
    let mut printer = Printer::new(out);
    printer.put_line(b"refused", [line.slot, line.input, line.output, number]);
    printer.count
}

// The lines of a slot's pairs, as a tick answers them.
#[tactic(auto, using(crate::proofs::Printing::slot_short))]
pub fn slot_lines(out: &mut [u8], slot: u64, ports: u32, served: Served) -> usize
    ensures outcome { effect result out.new
        ≡ put_effect slot_room
        (match_lines slot (matching_of served.outputs served.first_pass) ports) out.old }
    ensures short { length (match_lines slot (matching_of served.outputs served.first_pass) ports)
        ≤ slot_room }
{
    if out.len() < SLOT_ROOM {
        return 0;
    }
    let mut printer = Printer::new(out);
    printer.put_matches(slot, ports, served);
    printer.count
}
