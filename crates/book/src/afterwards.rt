// A booking that a pair is asked for.
ghost use Rattle.std.specs.Prelude.{◌^◌, ◌<◌};

use crate::asked::AskedPair;
use wsgs::BookedSlots;

// The pair, and the slots that the booking counts as.
#[derive(Clone, Copy)]
pub struct BookingRequest<'a> {
    pub asked: AskedPair<'a>,
    pub more: BookedSlots,
    ghost more_fits: { more.0 < 2 ^ 32 },
}
