// A fine book: calls one after the other on a book of two ports, in frames of three slots on lines of 1000.
// Stays (d): the calls of a case are its data.
use crate::pairs::Book;
use crate::show::{clock_of_kind, pair};
use std::io;

// A pair is sold the whole line, by slots and by rate, and what no longer fits gets 15.
pub fn whole_lines(rt: &impl Print) -> io::Result<()> {
    let clock = clock_of_kind(2, 3, 1_000, 1);
    let mut book = Book {
        clock,
        slots: [0; 5],
        rates: [0; 5],
    };
    book.book(rt, pair(1, 1), 4)?;
    book.book(rt, pair(1, 1), 3)?;
    book.rate(rt, pair(2, 2), 1_000)?;
    book.book(rt, pair(1, 2), 1)?;
    book.rate(rt, pair(2, 1), 1)?;
    book.release(rt, pair(1, 1), 1)?;
    book.book(rt, pair(1, 1), 2)?;
    book.book(rt, pair(1, 1), 1)
}

// Booked pairs of the row and of the column are asked, and those without a booking are not. Any word but 0 is that of a fine book.
pub fn sharing(rt: &impl Print) -> io::Result<()> {
    let clock = clock_of_kind(2, 3, 1_000, u32::MAX);
    let mut book = Book {
        clock,
        slots: [0; 5],
        rates: [0; 5],
    };
    book.book(rt, pair(1, 1), 1)?;
    book.book(rt, pair(1, 2), 2)?;
    book.book(rt, pair(2, 1), 1)?;
    book.book(rt, pair(2, 2), 1)?;
    book.release(rt, pair(1, 1), 1)?;
    book.book(rt, pair(2, 1), 3)
}

// Books that no calls lead to: a pair elsewhere that holds too much is not asked; a rate that raises the booking by 0 is refused where the pair holds
// too much; and the largest words.
pub fn garbage(rt: &impl Print) -> io::Result<()> {
    let clock = clock_of_kind(2, 3, 1_000, 7);
    let mut elsewhere = Book {
        clock,
        slots: [0, 0, 0, 9, 0],
        rates: [0; 5],
    };
    elsewhere.book(rt, pair(1, 1), 3)?;
    let mut held = Book {
        clock,
        slots: [3, 0, 0, 0, 0],
        rates: [400, 0, 0, 0, 0],
    };
    held.rate(rt, pair(1, 1), 200)?;
    let mut largest_slots = Book {
        clock,
        slots: [u32::MAX; 5],
        rates: [0; 5],
    };
    largest_slots.book(rt, pair(2, 1), 3)?;
    let mut largest = Book {
        clock,
        slots: [u32::MAX; 5],
        rates: [u32::MAX; 5],
    };
    largest.rate(rt, pair(1, 2), 1_000)?;
    largest_slots.rate(rt, pair(1, 2), 1_000)
}
