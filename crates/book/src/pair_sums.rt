// What the book holds for a pair, and the sums in which its booking stands. Headroom and previews read them here.
// Stays (d): clock, book and pair come apart, as C lends them, and are one `AskedPair` as soon as they are asked.
ghost use Rattle.std.specs.Prelude.{◌≡◌, ◌^◌, ◌<◌, IfOk};
ghost use Rattle.wsgs.specs.Questions.{holds_book};
ghost use Rattle.wsgs.specs.Told.{refusal_number, book_lent};
ghost use Rattle.questions.specs.Refusals.{pair_refusal};
ghost use Rattle.book.specs.PairSums.{present_sums};

use crate::asked::AskedPair;
use crate::pairs::word_of;
use crate::refusals::check_book_pair;
use wsgs::{BookRuns, Clock, Pair, Refused};

// The pair's word of slots and of rates, its booking, and the sums of bookings of its row and of its column.
#[derive(Clone, Copy)]
pub struct PairSums {
    pub slots: u32,
    pub rate: u32,
    pub booking: u64,
    pub row: u64,
    pub column: u64,
}

// Those of a pair that questions 1, 2, 4 and 5 pass.
// Inlined: as a call, with its book and its result in memory, a preview of a release took 1.1 times the instructions of one without structs.
#[inline(always)]
pub fn pair_sums(clock: Clock, book: BookRuns<'_>, pair: Pair) -> Result<PairSums, Refused>
    ensures refusal { refusal_number result
        ≡ pair_refusal clock (holds_book clock.ports (book_lent book.entry)) pair.input.0 pair.output.0 }
    ensures sums { IfOk result
        (λ s. s ≡ present_sums clock (book_lent book.entry) pair.input.0 pair.output.0) }
    ensures row_fits { IfOk result (λ s. s.row < 2 ^ 38) }
    ensures column_fits { IfOk result (λ s. s.column < 2 ^ 38) }
{
    check_book_pair(clock, book, pair)?;
    let asked = AskedPair {
        clock,
        runs: book,
        pair,
    };
    let ports = clock.ports as usize;
    Ok(PairSums {
        slots: word_of(ports, book.slots, pair),
        rate: word_of(ports, book.rates, pair),
        booking: asked.booked(pair).0,
        row: asked.row_sum(),
        column: asked.column_sum(),
    })
}
