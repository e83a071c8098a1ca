// Text put into a lent buffer, from its front on.
ghost use Rattle.std.specs.Prelude.{◌≡◌, [], ◌∷◌, ◌+◌, ◌≤◌, length, map};
ghost use Rattle.wsgs.specs.Answers.{matching_of};
ghost use Rattle.wsgs.specs.Text.{decimal, line};
ghost use Rattle.wsgs.specs.Program.{match_line, match_lines};
ghost use Rattle.lines.specs.Lines.{TextWritten, Printed, HasRoom, line_room, match_room, slot_room};

use wsgs::Served;

// A lent buffer, and how many bytes are put into it.
// Stays (c): tried as an `fmt::Write` over the buffer, which `write!` puts the numbers into. The one clause of that `write`, `writes`, speaks of
// an Ok, and none says that an Ok comes, so the goal `returns` of `put_number` stays open.
#[derive(Drop)]
pub struct Printer<'a> {
    out: &'a mut [u8],
    pub count: usize,
}

// A number in decimal, put from a place on, and the place after it. The calls pass the place in a register, where a lent Printer would be
// stored for each digit.
fn put_number(out: &mut [u8], at: usize, number: u64) -> usize
    requires room { at + length (decimal number) ≤ length out.old }
    ensures text { TextWritten out.old at (decimal number) result out.new }
{
    if number < 10 {
        out[at] = b'0' + number as u8;
        return at + 1;
    }
    let last = put_number(out, at, number / 10);
    out[last] = b'0' + (number % 10) as u8;
    last + 1
}

impl<'a> Printer<'a> {
    // Stays (d): the constructor; a From would not say that the count begins at 0.
    #[inline(always)]
    pub fn new(out: &'a mut [u8]) -> Printer<'a>
        ensures same_buffer { result.out.ghost_name ≡ out.entry.ghost_name }
        ensures buffer { result.out.now ≡ out.old }
        ensures count { result.count ≡ 0 }
    {
        Printer { out, count: 0 }
    }

    // A text.
    #[inline(always)]
    pub fn put(&mut self, text: &[u8])
        requires room { HasRoom self.old (length text.now) }
        ensures text { Printed self.old text.now self.new }
    {
        let end = self.count + text.len();
        let out = &mut *self.out;
        out[self.count..end].copy_from_slice(text);
        self.count = end;
    }

    // A byte.
    #[inline(always)]
    fn put_byte(&mut self, byte: u8)
        requires room { HasRoom self.old 1 }
        ensures text { Printed self.old (byte ∷ []) self.new }
    {
        self.out[self.count] = byte;
        self.count += 1;
    }

    // A number in decimal.
    // Stays (c): as above, by `write!` with its Display the goal `returns` stays open.
    #[inline(always)]
    fn put_number(&mut self, number: u64)
        requires room { HasRoom self.old (length (decimal number)) }
        ensures text { Printed self.old (decimal number) self.new }
    {
        self.count = put_number(self.out, self.count, number);
    }

    // A line of its kind and four numbers, of at most 20 digits each.
    #[inline(always)]
    pub fn put_line(&mut self, kind: &[u8], numbers: [u64; 4])
        requires room { HasRoom self.old (length kind.now + line_room) }
        ensures text { Printed self.old (line (kind.now ∷ map decimal numbers)) self.new }
    {
        self.put(kind);
        for number in numbers {
            self.put_byte(b',');
            self.put_number(number);
        }
        self.put(b"\r\n");
    }

    // The line of an input, if it has an output; inputs count from 1.
    // Stays (d): a struct of the four numbers of a line would be made for this one call.
    #[inline(always)]
    fn put_match(&mut self, slot: u64, input: u64, output: u8, is_first: bool)
        requires room { HasRoom self.old match_room }
        ensures text { Printed self.old (match_line slot input output is_first) self.new }
    {
        if output == 0 {
            return;
        }
        let pass = if is_first { 1 } else { 2 };
        self.put_line(b"match", [slot, input, u64::from(output), pass]);
    }

    // The lines of a slot's pairs, inputs rising, of which no more than 32 have an output.
    pub fn put_matches(&mut self, slot: u64, ports: u32, served: Served)
        requires room { HasRoom self.old slot_room }
        ensures text { Printed self.old
            (match_lines slot (matching_of served.outputs served.first_pass) ports) self.new }
    {
        let inputs = served.outputs.len().min(ports as usize);
        for (i, &output) in served.outputs[..inputs].iter().enumerate() {
            let is_first = (served.first_pass >> i) & 1 == 1;
            self.put_match(slot, i as u64 + 1, output, is_first);
        }
    }
}
