// The sums of all rows and of all columns of the bookings that would follow, taken in one sweep over the pairs.
ghost use Rattle.std.specs.Prelude.{◌≡◌, ◌-◌, ◌^◌, ◌<◌};
ghost use Rattle.wsgs.specs.Basics.{Port};
ghost use Rattle.wsgs.specs.Bookings.{row_sum};
ghost use Rattle.book.specs.Afterwards.{afterwards, ColumnSums, Totals};

use crate::afterwards::BookingRequest;
use wsgs::{BookedSlots, Input, Output, Pair};

// The sum of each input's row, and of each output's column, from 1 on.
// Stays (d): rows are by input and columns by output, so an array of both would pair numbers that have nothing to do with each other.
#[derive(Clone, Copy)]
pub struct AllSums {
    pub rows: [u64; 32],
    pub columns: [u64; 32],
}

impl BookingRequest<'_> {
    // What any pair of the ports would have booked.
    pub fn booked(self, other: Pair) -> BookedSlots
        requires input_in_range { Port self.asked.clock.ports other.input.0 }
        requires output_in_range { Port self.asked.clock.ports other.output.0 }
        ensures result { result.0 ≡ afterwards self.entry.asked self.entry.more.0 other.input.0 other.output.0 }
        ensures fits { result.0 < 2 ^ 33 }
    {
        let present = self.asked.booked(other);
        if other != self.asked.pair {
            return present;
        }
        BookedSlots(present.0 + self.more.0)
    }

    // All sums.
    pub fn all_sums(self) -> AllSums
        ensures totals { Totals self.entry.asked self.entry.more.0 result }
    {
        let mut rows = [0u64; 32];
        let mut columns = [0u64; 32];
        let ports = self.asked.clock.ports as usize;
        for (at, row) in rows[..ports].iter_mut().enumerate() {
            *row = self.add_row(Input(at as u64 + 1), &mut columns);
        }
        AllSums { rows, columns }
    }

    // The bookings of an input, summed; each is added to its column's sum over the inputs before.
    fn add_row(self, input: Input, columns: &mut [u64; 32]) -> u64
        requires input_in_range { Port self.asked.clock.ports input.0 }
        requires columns_before { ColumnSums self.asked.clock.ports (input.0 - 1) (afterwards self.asked self.more.0) columns.old }
        ensures row { result ≡ row_sum self.entry.asked.clock.ports (afterwards self.entry.asked self.entry.more.0) input.0 }
        ensures columns_exit { ColumnSums self.entry.asked.clock.ports input.0 (afterwards self.entry.asked self.entry.more.0) columns.new }
    {
        let mut sum = 0u64;
        let ports = self.asked.clock.ports as usize;
        for (at, column) in columns[..ports].iter_mut().enumerate() {
            let output = Output(at as u64 + 1);
            let own = self.booked(Pair { input, output });
            sum += own.0;
            *column += own.0;
        }
        sum
    }
}
