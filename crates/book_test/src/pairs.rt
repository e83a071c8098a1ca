// Calls on a pair, on runs of five words that are all alike at first: a switch of two ports uses four of them.
// Stays (d): the four calls on a book are four functions that lend slots or rates for writing, so a closure for the call would be as long as its method; the cases
// are data.
use crate::show::{Shown, WordsAt, clock, number, pair};
use std::io;
use wsgs::{BookedSlots, Clock, Pair, Refused};

// The places of the words of two ports, and one beyond.
const PLACES: [usize; 5] = [0, 1, 2, 3, 4];

// What a call on a pair is given: its name, the pair, and a number with what it is.
#[derive(Clone, Copy)]
struct Call<'a>(&'a str, Pair, &'a str, u64);

// Prints what a call on a pair is given, and what it answers.
fn show_call(
    rt: &impl Print,
    clock: Clock,
    call: Call<'_>,
    outcome: Result<(), Refused>,
) -> io::Result<()> {
    let Call(name, pair, what, amount) = call;
    print!(rt;
        "{name} {} pair {} {}",
        Shown(clock),
        pair.input.0,
        pair.output.0
    )?;
    print!(rt; " {what} {amount}: refusal {}", number(outcome))
}

// A book, with the clock of its switch. Each call on it prints its line.
#[derive(Drop)]
pub struct Book<const SLOTS: usize, const RATES: usize> {
    pub clock: Clock,
    pub slots: [u32; SLOTS],
    pub rates: [u32; RATES],
}

impl<const SLOTS: usize, const RATES: usize> Book<SLOTS, RATES> {
    fn show(
        &self,
        rt: &impl Print,
        call: Call<'_>,
        outcome: Result<(), Refused>,
    ) -> io::Result<()> {
        show_call(rt, self.clock, call, outcome)?;
        print!(rt; " slots{}", WordsAt(&self.slots, &PLACES))?;
        println!(rt; " rates{}", WordsAt(&self.rates, &PLACES))
    }

    pub fn book(&mut self, rt: &impl Print, pair: Pair, amount: u64) -> io::Result<()> {
        let clock = self.clock;
        let outcome = book::book(
            clock,
            &mut self.slots,
            &self.rates,
            pair,
            BookedSlots(amount),
        );
        self.show(rt, Call("book", pair, "amount", amount), outcome)
    }

    pub fn rate(&mut self, rt: &impl Print, pair: Pair, amount: u64) -> io::Result<()> {
        let clock = self.clock;
        let outcome = book::book_rate(clock, &self.slots, &mut self.rates, pair, amount);
        self.show(rt, Call("book_rate", pair, "rate", amount), outcome)
    }

    pub fn release(&mut self, rt: &impl Print, pair: Pair, amount: u64) -> io::Result<()> {
        let clock = self.clock;
        let outcome = book::release(
            clock,
            &mut self.slots,
            &self.rates,
            pair,
            BookedSlots(amount),
        );
        self.show(rt, Call("release", pair, "amount", amount), outcome)
    }

    pub fn release_rate(&mut self, rt: &impl Print, pair: Pair, amount: u64) -> io::Result<()> {
        let clock = self.clock;
        let outcome = book::release_rate(clock, &self.slots, &mut self.rates, pair, amount);
        self.show(rt, Call("release_rate", pair, "rate", amount), outcome)
    }

    // The four calls.
    fn all(&mut self, rt: &impl Print, pair: Pair) -> io::Result<()> {
        self.book(rt, pair, 1)?;
        self.rate(rt, pair, 1)?;
        self.release(rt, pair, 1)?;
        self.release_rate(rt, pair, 1)
    }
}

fn arrive_on(
    rt: &impl Print,
    clock: Clock,
    queues: &mut [u32],
    pair: Pair,
    amount: u64,
) -> io::Result<()> {
    let outcome = book::arrive(clock, queues, pair, amount);
    show_call(rt, clock, Call("arrive", pair, "packets", amount), outcome)?;
    println!(rt; " queues{}", WordsAt(queues, &PLACES))
}

fn book_case(rt: &impl Print, frame: u32, all: u32, pair: Pair, amount: u64) -> io::Result<()> {
    let mut book = Book {
        clock: clock(2, frame, 0),
        slots: [all; 5],
        rates: [0; 5],
    };
    book.book(rt, pair, amount)
}

fn rate_case(rt: &impl Print, frame: u32, line: u32, rate: u64) -> io::Result<()> {
    let mut book = Book {
        clock: clock(2, frame, line),
        slots: [0; 5],
        rates: [0; 5],
    };
    book.rate(rt, pair(1, 2), rate)
}

fn release_case(rt: &impl Print, all: u32, amount: u64) -> io::Result<()> {
    let mut book = Book {
        clock: clock(2, 3, 0),
        slots: [all; 5],
        rates: [0; 5],
    };
    book.release(rt, pair(2, 1), amount)
}

fn release_rate_case(rt: &impl Print, line: u32, all: u32, rate: u64) -> io::Result<()> {
    let mut book = Book {
        clock: clock(2, 3, line),
        slots: [9; 5],
        rates: [all; 5],
    };
    book.release_rate(rt, pair(2, 1), rate)
}

fn arrive_case(rt: &impl Print, all: u32, packets: u64) -> io::Result<()> {
    arrive_on(rt, clock(2, 3, 0), &mut [all; 5], pair(2, 2), packets)
}

// All five calls, on runs that are long enough.
fn all_with(rt: &impl Print, clock: Clock, pair: Pair) -> io::Result<()> {
    let mut book = Book {
        clock,
        slots: [0; 4],
        rates: [0; 4],
    };
    book.all(rt, pair)?;
    arrive_on(rt, clock, &mut [0; 4], pair, 1)
}

// Clocks whose sizes no start accepts.
pub fn clocks(rt: &impl Print) -> io::Result<()> {
    all_with(rt, clock(2, 10_000, 1_000), pair(1, 1))?;
    all_with(rt, clock(0, 3, 1_000), pair(1, 1))?;
    all_with(rt, clock(33, 3, 1_000), pair(1, 1))?;
    all_with(rt, clock(2, 0, 1_000), pair(1, 1))?;
    all_with(rt, clock(2, 10_001, 1_000), pair(1, 1))?;
    all_with(rt, clock(u32::MAX, u32::MAX, u32::MAX), pair(1, 1))
}

// Slots, rates and queues that are too short, each by itself.
fn all_short(rt: &impl Print, pair: Pair) -> io::Result<()> {
    let clock = clock(2, 3, 1_000);
    let mut few_slots = Book {
        clock,
        slots: [0; 3],
        rates: [0; 4],
    };
    few_slots.all(rt, pair)?;
    let mut few_rates = Book {
        clock,
        slots: [0; 4],
        rates: [0; 3],
    };
    few_rates.all(rt, pair)?;
    arrive_on(rt, clock, &mut [0; 3], pair, 1)
}

// Ports at and past their ends, then runs too short, and both.
pub fn ports(rt: &impl Print) -> io::Result<()> {
    let clock = clock(2, 3, 1_000);
    all_with(rt, clock, pair(2, 2))?;
    all_with(rt, clock, pair(0, 1))?;
    all_with(rt, clock, pair(3, 1))?;
    all_with(rt, clock, pair(1, 0))?;
    all_with(rt, clock, pair(1, 3))?;
    all_with(rt, clock, pair(u64::MAX, 1))?;
    all_with(rt, clock, pair(1, u64::MAX))?;
    all_short(rt, pair(2, 2))?;
    all_short(rt, pair(0, 3))
}

// Amounts at and past their ends, words at their end, and a row and a column that are full.
pub fn bookings(rt: &impl Print) -> io::Result<()> {
    book_case(rt, 3, 0, pair(1, 1), 0)?;
    book_case(rt, 3, 0, pair(1, 1), 3)?;
    book_case(rt, 3, 0, pair(1, 1), 4)?;
    book_case(rt, 3, 0, pair(1, 1), u64::MAX)?;
    book_case(rt, 1, 0, pair(2, 1), 1)?;
    book_case(rt, 1, 0, pair(2, 1), 2)?;
    book_case(rt, 3, u32::MAX, pair(1, 2), 1)?;
    let mut book = Book {
        clock: clock(2, 3, 0),
        slots: [0; 5],
        rates: [0; 5],
    };
    book.book(rt, pair(1, 2), 2)?;
    book.book(rt, pair(1, 1), 1)?;
    book.book(rt, pair(2, 2), 1)?;
    book.book(rt, pair(2, 1), 2)
}

// Line rates and rates at and past their ends, and rates just within a slot and just above it.
pub fn rates(rt: &impl Print) -> io::Result<()> {
    rate_case(rt, 1, 1, 1)?;
    rate_case(rt, 1, 1, 2)?;
    rate_case(rt, 10, 100, 0)?;
    rate_case(rt, 10, 100, 100)?;
    rate_case(rt, 10, 100, 101)?;
    rate_case(rt, 10, 0, 0)?;
    rate_case(rt, 10, 0, 1)?;
    rate_case(rt, 10, 100_000_000, 1)?;
    rate_case(rt, 10, 100_000_001, 1)?;
    rate_case(rt, 10_000, 100_000_000, 50_000_000)?;
    rate_case(rt, 10_000, 100_000_000, 50_000_001)?;
    rate_case(rt, 10_000, 100_000_000, 100_000_000)?;
    rate_case(rt, 10_000, u32::MAX, 4_294_967_295)?;
    rate_case(rt, 10_000, 100_000_000, u64::MAX)?;
    rate_case(rt, 3, 1_000, 333)?;
    rate_case(rt, 3, 1_000, 334)?;
    rate_case(rt, 3, 1_000, 666)?;
    rate_case(rt, 3, 1_000, 667)
}

// Amounts at and past their ends, and words at their end.
pub fn releases(rt: &impl Print) -> io::Result<()> {
    release_case(rt, 3, 0)?;
    release_case(rt, 3, 3)?;
    release_case(rt, 3, 4)?;
    release_case(rt, 2, 3)?;
    release_case(rt, u32::MAX, 3)?;
    release_case(rt, 3, u64::MAX)
}

// Line rates, rates and words at and past their ends.
pub fn rate_releases(rt: &impl Print) -> io::Result<()> {
    release_rate_case(rt, 1_000, 600, 0)?;
    release_rate_case(rt, 1_000, 600, 1)?;
    release_rate_case(rt, 1_000, 600, 600)?;
    release_rate_case(rt, 1_000, 600, 601)?;
    release_rate_case(rt, 1_000, 600, 1_000)?;
    release_rate_case(rt, 1_000, 600, 1_001)?;
    release_rate_case(rt, 1_000, 600, u64::MAX)?;
    release_rate_case(rt, 0, 600, 1)?;
    release_rate_case(rt, 100_000_000, u32::MAX, 100_000_000)?;
    release_rate_case(rt, 100_000_001, 600, 1)
}

// Amounts and queues at and past their ends, and words at their end.
pub fn arrivals(rt: &impl Print) -> io::Result<()> {
    arrive_case(rt, 0, 0)?;
    arrive_case(rt, 0, 65_535)?;
    arrive_case(rt, 0, 65_536)?;
    arrive_case(rt, 934_465, 65_535)?;
    arrive_case(rt, 934_466, 65_535)?;
    arrive_case(rt, u32::MAX, 1)?;
    arrive_case(rt, 0, u64::MAX)
}
