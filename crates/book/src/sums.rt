// What pairs have booked, and the bookings summed over a line of a pair: its input's row, or its output's column.
ghost use Rattle.std.specs.Prelude.{◌≡◌, ◌^◌, ◌<◌};
ghost use Rattle.wsgs.specs.Basics.{Port};
ghost use Rattle.wsgs.specs.Bookings.{row_sum, column_sum};
ghost use Rattle.book.specs.Lines.{pair_at, along, line_sum};
ghost use Rattle.book.specs.Asked.{present};

use crate::asked::AskedPair;
use crate::pairs::word_of;
use bookings::booking;
use wsgs::{BookedSlots, Input, Output, Pair};

// The pairs that share a pair's input, and those that share its output.
#[derive(Clone, Copy, Debug, PartialEq, Eq)]
pub enum Line {
    Row,
    Column,
}

impl Line {
    // The pair of a pair's line at a port.
    #[inline(always)]
    pub fn pair_at(self, pair: Pair, port: u64) -> Pair
        ensures result { result ≡ pair_at self pair port }
    {
        match self {
            Line::Row => Pair {
                output: Output(port),
                ..pair
            },
            Line::Column => Pair {
                input: Input(port),
                ..pair
            },
        }
    }
}

impl AskedPair<'_> {
    // What any pair of the ports has booked.
    #[inline(always)]
    pub fn booked(self, other: Pair) -> BookedSlots
        requires input_in_range { Port self.clock.ports other.input.0 }
        requires output_in_range { Port self.clock.ports other.output.0 }
        ensures result { result.0 ≡ present self.entry other.input.0 other.output.0 }
        ensures fits { result.0 < 2 ^ 32 }
    {
        let ports = self.clock.ports as usize;
        let held = BookedSlots::from(word_of(ports, self.runs.slots, other));
        let rate = word_of(ports, self.runs.rates, other);
        booking(self.clock, held, rate)
    }

    // What the line's pair at a port has.
    #[inline(always)]
    fn booked_at(self, line: Line, port: u64) -> BookedSlots
        requires port_in_range { Port self.clock.ports port }
        ensures result { result.0 ≡ along line (present self.entry) self.entry.pair port }
        ensures fits { result.0 < 2 ^ 32 }
    {
        self.booked(line.pair_at(self.pair, port))
    }

    // The bookings of the pair's row, and of its column.
    // Stays (b): a function for each line, with `sum` in it. Were `sum` called with a line known only as it runs, or the two of them part of a larger
    // function, LLVM would leave the test of the line rate in the loop: 2.5 times the instructions on 32 ports without a line rate.
    pub fn row_sum(self) -> u64
        ensures result { result ≡ row_sum self.entry.clock.ports (present self.entry) self.entry.pair.input.0 }
    {
        self.sum(Line::Row)
    }

    pub fn column_sum(self) -> u64
        ensures result { result ≡ column_sum self.entry.clock.ports (present self.entry) self.entry.pair.output.0 }
    {
        self.sum(Line::Column)
    }

    // The bookings of a line, summed in 64 bits: none of 32 can make them wrap.
    // Stays (b): as `(1..).map(..).sum()`, of which the compiler made one function for both lines, calls on the book took up to 1.46 times the instructions.
    #[inline(always)]
    fn sum(self, line: Line) -> u64
        ensures result { result
            ≡ line_sum line self.entry.clock.ports (present self.entry) self.entry.pair }
    {
        let mut sum = 0;
        for at in 0..self.clock.ports as u64 {
            sum += self.booked_at(line, at + 1).0;
        }
        sum
    }
}
