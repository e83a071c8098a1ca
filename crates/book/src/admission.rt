// Admission: whether the book's rule admits a booking, and whether a pair holds what a release takes off.
ghost use Rattle.std.specs.Prelude.{◌≡◌};
ghost use Rattle.wsgs.specs.Told.{refusal_number, book_lent};
ghost use Rattle.book.specs.Refusals.{sums_refusal, pairs_refusal, rule_refusal, held_refusal, PairFits};

use crate::afterwards::BookingRequest;
use crate::pairs::word_of;
use wsgs::{Pair, Refused};

impl BookingRequest<'_> {
    // Whether the booking is admitted: what the book asks, which is plain or fine.
    // Stays (a): the kind is a word of any value in the clock that C keeps (`uint32_t clock[5]`, the last), and wsgs reads it so (`is_fine`).
    // Inlined, as far as a plain book's sums; a fine book's sweep stays a call, so that a plain one does not pay for its large frame.
    #[inline(always)]
    pub fn check_rule(self) -> Result<(), Refused>
        ensures refusal { refusal_number result
            ≡ rule_refusal self.entry.asked.clock (book_lent self.entry.asked.runs)
            self.entry.asked.pair.input.0 self.entry.asked.pair.output.0 self.entry.more.0 }
    {
        if self.asked.clock.fine == 0 {
            self.check_sums()
        } else {
            self.check_sharing()
        }
    }

    // On a plain book: whether the sums leave room, questions 8 and 9.
    #[inline(always)]
    fn check_sums(self) -> Result<(), Refused>
        ensures refusal { refusal_number result
            ≡ sums_refusal self.entry.asked.clock (book_lent self.entry.asked.runs)
            self.entry.asked.pair.input.0 self.entry.asked.pair.output.0 self.entry.more.0 }
    {
        let limit = self.asked.clock.frame as u64 + 1;
        if 2 * (self.asked.row_sum() + self.more.0) > limit {
            return Err(Refused::Row);
        }
        if 2 * (self.asked.column_sum() + self.more.0) > limit {
            return Err(Refused::Column);
        }
        Ok(())
    }

    // On a fine book: whether each booked pair that shares the input or the output would fit the frame, question 15. One sweep over the pairs takes all sums,
    // then the pairs of the row and those of the column are gone over once.
    #[inline(never)]
    fn check_sharing(self) -> Result<(), Refused>
        ensures refusal { refusal_number result
            ≡ pairs_refusal self.entry.asked.clock (book_lent self.entry.asked.runs)
            self.entry.asked.pair.input.0 self.entry.asked.pair.output.0 self.entry.more.0 }
    {
        let totals = self.all_sums();
        if self.row_fits(&totals) && self.column_fits(&totals) {
            return Ok(());
        }
        Err(Refused::Sharing)
    }
}

// Whether a pair's word in a run, of slots or of rates, holds as much: question 10.
// Stays (d): on `PairFits` in the clause see pairs.rt.
pub fn check_held(ports: usize, run: &[u32], pair: Pair, amount: u64) -> Result<(), Refused>
    requires pair_fits { PairFits ports run.now pair.input.0 pair.output.0 }
    ensures refusal { refusal_number result ≡ held_refusal ports run.now pair.input.0 pair.output.0 amount }
{
    let held = word_of(ports, run, pair);
    if (held as u64) < amount {
        return Err(Refused::Held);
    }
    Ok(())
}
