// What C is told of an answer: the number of its refusal, 0 for none, is given back, and the rest is written into lent words.
// Stays (a): the C interface (include/kivdrag.h) has numbers for refusals and for the kind of the book, and a lent word for each value besides. `pair_of` and
// `kind_of` read numbers of C as what they mean there; a From would take a pair without saying which number is the input.
ghost use Rattle.std.specs.Prelude.{◌≡◌};
ghost use Rattle.wsgs.specs.Preview.{preview_of};
ghost use Rattle.wsgs.specs.Told.{refusal_number, kind_is_fine, start_told, tick_told, headroom_told, preview_told};
ghost use Rattle.wsgs.specs.Clocks.{is_fine};
ghost use Rattle.kivdrag_c.specs.Clocks.{clock_in_words, clock_words};
ghost use Rattle.kivdrag_c.specs.Results.{c_headroom};

use crate::clocks::put_clock;
use wsgs::{BookKind, BookRuns, Clock, Input, Output, Pair, Previewed, Refused, Served, Ticked};

// The pair of two numbers of C.
pub fn pair_of(input: u64, output: u64) -> Pair
    ensures input { result.input.0 ≡ input }
    ensures output { result.output.0 ≡ output }
{
    Pair {
        input: Input(input),
        output: Output(output),
    }
}

// The runs of a book.
pub fn book_runs<'a>(slots: &'a [u32], rates: &'a [u32]) -> BookRuns<'a>
    ensures slots { result.slots.now ≡ slots.now }
    ensures rates { result.rates.now ≡ rates.now }
{
    BookRuns { slots, rates }
}

// The kind of book that a word of C asks for: a plain one where it is 0, and else a fine one.
pub fn kind_of(fine: u32) -> BookKind
    ensures kind { kind_is_fine result ≡ is_fine fine }
{
    if fine == 0 {
        BookKind::Plain
    } else {
        BookKind::Fine
    }
}

// The number of an answer without a value.
pub fn number_of(outcome: Result<(), Refused>) -> u32
    ensures number { result ≡ refusal_number outcome }
{
    match outcome {
        Ok(()) => 0,
        Err(refused) => u32::from(refused),
    }
}

// Writes the clock of an accepted start. A refused one leaves the words.
pub fn put_start(started: Result<Clock, Refused>, clock: &mut [u32; 5]) -> u32
    ensures refusal { result ≡ (start_told (clock_in_words clock.old) started).refusal }
    ensures clock_exit { clock.new ≡ clock_words (start_told (clock_in_words clock.old) started).clock }
{
    match started {
        Ok(first) => {
            put_clock(clock, first);
            0
        }
        Err(refused) => u32::from(refused),
    }
}

// Writes the clock, the outputs and the pass-one word of an accepted tick. A refused one leaves the clock, and has no pairs.
pub fn put_tick(
    ticked: Result<Ticked, Refused>,
    clock: &mut [u32; 5],
    outputs: &mut [u8; 32],
    first_pass: &mut u32,
) -> u32
    ensures refusal { result ≡ (tick_told (clock_in_words clock.old) ticked).refusal }
    ensures clock_exit { clock.new ≡ clock_words (tick_told (clock_in_words clock.old) ticked).clock }
    ensures outputs_exit { outputs.new ≡ (tick_told (clock_in_words clock.old) ticked).outputs }
    ensures first_pass_exit { first_pass.new ≡ (tick_told (clock_in_words clock.old) ticked).first_pass }
{
    match ticked {
        Ok(ticked) => {
            let Served {
                outputs: found,
                first_pass: passes,
            } = ticked.served;
            put_clock(clock, ticked.clock);
            *outputs = found;
            *first_pass = passes;
            0
        }
        Err(refused) => {
            *outputs = [0; 32];
            *first_pass = 0;
            u32::from(refused)
        }
    }
}

// Writes headroom, which is 0 beside a refusal.
pub fn put_headroom(told: Result<i64, Refused>, headroom: &mut i64) -> u32
    ensures outcome { c_headroom result headroom.new ≡ headroom_told told }
{
    match told {
        Ok(number) => {
            *headroom = number;
            0
        }
        Err(refused) => {
            *headroom = 0;
            u32::from(refused)
        }
    }
}

// Writes the sums of a preview, and gives the number that the operation would get.
pub fn put_preview(told: Previewed, row: &mut u64, column: &mut u64) -> u32
    ensures outcome { preview_of result row.new column.new ≡ preview_told told }
{
    *row = told.row;
    *column = told.column;
    number_of(told.outcome)
}
