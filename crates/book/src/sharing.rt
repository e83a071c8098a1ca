// Whether inequality (2) of the paper would hold of the booked pairs that share the input or the output of a booking.
ghost use Rattle.std.specs.Prelude.{◌≡◌, ◌^◌, ◌<◌};
ghost use Rattle.std.specs.List.{list_all, range_with_len};
ghost use Rattle.wsgs.specs.Basics.{Port};
ghost use Rattle.wsgs.specs.Rule.{pair_fits};
ghost use Rattle.book.specs.Afterwards.{Totals, fits_along, row_fits, column_fits};

use crate::afterwards::BookingRequest;
use crate::all_sums::AllSums;
use crate::sums::Line;
use wsgs::BookedSlots;

// Whether a pair fits: it has no booking, or its row and its column, with its own booking once, fit the frame.
fn pair_fits(frame: u64, own: BookedSlots, row: u64, column: u64) -> bool
    requires frame_fits { frame < 2 ^ 32 }
    requires own_fits { own.0 < 2 ^ 38 }
    requires row_fits { row < 2 ^ 38 }
    requires column_fits { column < 2 ^ 38 }
    ensures result { result ≡ pair_fits frame own.0 row column }
{
    own.0 == 0 || row + column <= frame + own.0
}

impl BookingRequest<'_> {
    // Whether the line's pair at a port does.
    #[inline(always)]
    fn fits_at(self, totals: &AllSums, line: Line, port: u64) -> bool
        requires totals { Totals self.asked self.more.0 totals.now }
        requires port_in_range { Port self.asked.clock.ports port }
        ensures result { result ≡ fits_along line self.entry.asked self.entry.more.0 port }
    {
        let other = line.pair_at(self.asked.pair, port);
        let row = totals.rows[other.input.0 as usize - 1];
        let column = totals.columns[other.output.0 as usize - 1];
        pair_fits(
            self.asked.clock.frame as u64,
            self.booked(other),
            row,
            column,
        )
    }

    // Whether each pair of the row does, and each of the column.
    // Stays (b): a function for each line, with `line_fits` in it, as `row_sum` and `column_sum` in sums.rt.
    pub fn row_fits(self, totals: &AllSums) -> bool
        requires totals { Totals self.asked self.more.0 totals.now }
        ensures result { result ≡ row_fits self.entry.asked self.entry.more.0 }
    {
        self.line_fits(totals, Line::Row)
    }

    pub fn column_fits(self, totals: &AllSums) -> bool
        requires totals { Totals self.asked self.more.0 totals.now }
        ensures result { result ≡ column_fits self.entry.asked self.entry.more.0 }
    {
        self.line_fits(totals, Line::Column)
    }

    // Whether each pair of the line does.
    #[inline(always)]
    fn line_fits(self, totals: &AllSums, line: Line) -> bool
        requires totals { Totals self.asked self.more.0 totals.now }
        ensures result { result
            ≡ list_all (fits_along line self.entry.asked self.entry.more.0) (range_with_len 1 self.entry.asked.clock.ports) }
    {
        (1..self.asked.clock.ports as u64 + 1).all(|port| self.fits_at(totals, line, port))
    }
}
