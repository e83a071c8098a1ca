// Rates on a pair are summed before rounding: calls one after the other on a book of two ports, in frames of three slots on lines of 1000.
// Stays (d): the calls of a case are its data.
use crate::pairs::Book;
use crate::show::{clock, pair};
use std::io;

// Three streams of 200 on pair (1, 1) take two slots, and a fourth would take a third. Rates that raise the booking by 0 fit the full row, and
// one that raises it does not, nor do another pair's. Each release sees what it releases alone.
pub fn streams(rt: &impl Print) -> io::Result<()> {
    let clock = clock(2, 3, 1_000);
    let mut book = Book {
        clock,
        slots: [0; 5],
        rates: [0; 5],
    };
    book.rate(rt, pair(1, 1), 200)?;
    book.rate(rt, pair(1, 1), 200)?;
    book.rate(rt, pair(1, 1), 200)?;
    book.rate(rt, pair(1, 1), 200)?;
    book.rate(rt, pair(1, 1), 66)?;
    book.rate(rt, pair(1, 1), 1)?;
    book.rate(rt, pair(1, 2), 1)?;
    book.rate(rt, pair(2, 1), 1)?;
    book.book(rt, pair(1, 1), 1)?;
    book.book(rt, pair(2, 2), 1)?;
    book.release(rt, pair(1, 1), 1)?;
    book.release_rate(rt, pair(2, 2), 1)?;
    book.release_rate(rt, pair(1, 1), 667)?;
    book.release_rate(rt, pair(1, 1), 666)?;
    book.release_rate(rt, pair(1, 1), 1)
}

// Slots and rates of a pair add up.
pub fn slots_and_rates(rt: &impl Print) -> io::Result<()> {
    let clock = clock(2, 3, 1_000);
    let mut book = Book {
        clock,
        slots: [0; 5],
        rates: [0; 5],
    };
    book.book(rt, pair(1, 1), 1)?;
    book.rate(rt, pair(1, 1), 333)?;
    book.rate(rt, pair(1, 1), 1)?;
    book.book(rt, pair(1, 1), 1)?;
    book.release(rt, pair(1, 1), 1)?;
    book.rate(rt, pair(1, 1), 1)?;
    book.book(rt, pair(1, 1), 1)?;
    book.release_rate(rt, pair(1, 1), 1)?;
    book.book(rt, pair(1, 1), 1)
}

// One call of each kind on a book whose words are all alike, on lines of a given rate. The calls on slots ask nothing of it.
fn garbage_case(rt: &impl Print, line: u32, booked: u32, rate: u32) -> io::Result<()> {
    let clock = clock(2, 3, line);
    let mut book = Book {
        clock,
        slots: [booked; 5],
        rates: [rate; 5],
    };
    book.book(rt, pair(1, 2), 1)?;
    book.rate(rt, pair(1, 2), 200)?;
    book.release(rt, pair(1, 2), 1)?;
    book.release_rate(rt, pair(1, 2), 200)
}

// Books that no calls lead to: a row that holds too much, which refuses a rate that raises the booking by 0; rates on a line of 0, which count
// nothing; rates on a line that no start accepts, which count; and the largest words.
pub fn garbage(rt: &impl Print) -> io::Result<()> {
    garbage_case(rt, 1_000, 3, 400)?;
    garbage_case(rt, 0, 0, u32::MAX)?;
    garbage_case(rt, 100_000_001, 0, 1)?;
    garbage_case(rt, 200_000_000, 1, 100_000_000)?;
    garbage_case(rt, u32::MAX, 0, u32::MAX)?;
    garbage_case(rt, 100_000_000, u32::MAX, u32::MAX)?;
    garbage_case(rt, 200, 0, u32::MAX)
}
