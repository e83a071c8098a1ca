// Rates: whether one is in range, and how far it raises a booking.
ghost use Rattle.std.specs.Prelude.{◌≡◌, ◌^◌, ◌<◌};
ghost use Rattle.wsgs.specs.Questions.{rate_in_range};
ghost use Rattle.wsgs.specs.Book.{rise};
ghost use Rattle.wsgs.specs.Told.{book_lent};

use crate::asked::AskedPair;
use crate::pairs::word_of;
use bookings::rise;
use questions::is_between;
use wsgs::{BookedSlots, MAX_LINE_RATE};

// Whether a line can have that rate, and a pair a rate of it: question 6.
pub fn rate_in_range(line: u64, rate: u64) -> bool
    ensures result { result ≡ (rate_in_range line rate).yes }
{
    is_between(1, MAX_LINE_RATE, line) && is_between(1, line, rate)
}

impl AskedPair<'_> {
    // How far the pair's booking rises where its summed rate rises by so much.
    pub fn rise(self, rate: u32) -> BookedSlots
        ensures result { result.0 ≡ rise self.entry.clock (book_lent self.entry.runs)
            self.entry.pair.input.0 self.entry.pair.output.0 rate }
        ensures fits { result.0 < 2 ^ 32 }
    {
        let ports = self.clock.ports as usize;
        let booked = BookedSlots::from(word_of(ports, self.runs.slots, self.pair));
        let held = word_of(ports, self.runs.rates, self.pair);
        rise(self.clock, booked, held, rate)
    }
}
