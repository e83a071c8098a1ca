// The amounts behind a booking, in 64 bits.
ghost use Rattle.std.specs.Prelude.{◌≡◌, ◌+◌, ◌*◌, ◌^◌, ◌≤◌, ◌<◌};
ghost use Rattle.wsgs.specs.Bookings.{rate_slots, booking};

use wsgs::{BookedSlots, Clock};

// The largest number that a booking counts as.
const MAX_BOOKING: u64 = u32::MAX as u64;

// The slots of a frame that a rate takes on a line, rounded up. Without a rate, or on a line without one, nothing is divided.
fn rate_slots(clock: Clock, rate: u64) -> u64
    requires rate_fits { rate * clock.frame + 2 ^ 32 ≤ 2 ^ 64 }
    ensures result { result ≡ rate_slots clock.frame clock.line rate }
    ensures few { result ≤ rate * clock.frame }
{
    let frame = clock.frame as u64;
    let line = clock.line as u64;
    if rate == 0 || line == 0 {
        return 0;
    }
    (rate * frame + (line - 1)) / line
}

// The booking of a pair whose rate and frame make no product that wraps.
pub fn booked(clock: Clock, slots: BookedSlots, rate: u64) -> BookedSlots
    requires rate_fits { rate * clock.frame + 2 ^ 32 ≤ 2 ^ 64 }
    ensures result { result.0 ≡ booking clock.frame clock.line slots.0 rate }
    ensures fits { result.0 < 2 ^ 32 }
{
    if slots.0 > MAX_BOOKING {
        return BookedSlots(MAX_BOOKING);
    }
    let summed = slots.0 + rate_slots(clock, rate);
    BookedSlots(summed.min(MAX_BOOKING))
}
