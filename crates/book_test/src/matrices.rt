// Calls on the last pair of 32 ports, on runs of the least length, a word longer and a word shorter, and on runs of the largest words. Each line
// has the last word that is used, and the one beyond.
// Stays (d): book_last and rate_last each try two functions on the run that these write, and show it.
ghost use Rattle.std.specs.Prelude.{◌≤◌};

use crate::show::{WordsAt, clock, number, pair};
use book::{arrive, book, book_rate, release, release_rate};
use std::io;
use wsgs::{BookedSlots, Clock, Refused};

fn show_last(
    rt: &impl Print,
    name: &str,
    outcome: Result<(), Refused>,
    words: &[u32],
) -> io::Result<()> {
    print!(rt; "{name} on {}: refusal {}", words.len(), number(outcome))?;
    println!(rt; " words{}", WordsAt(words, &[1023, 1024]))
}

fn book_last(rt: &impl Print, clock: Clock, slots: &mut [u32], rates: &[u32]) -> io::Result<()> {
    let last = pair(32, 32);
    let booked = book(clock, slots, rates, last, BookedSlots(5_000));
    show_last(rt, "last pair, book 5000", booked, slots)?;
    let released = release(clock, slots, rates, last, BookedSlots(1));
    show_last(rt, "last pair, release 1", released, slots)
}

fn rate_last(rt: &impl Print, clock: Clock, slots: &[u32], rates: &mut [u32]) -> io::Result<()> {
    let last = pair(32, 32);
    let rated = book_rate(clock, slots, rates, last, 1);
    show_last(rt, "last pair, book rate 1 of 10000", rated, rates)?;
    let over = book_rate(clock, slots, rates, last, 1);
    show_last(rt, "last pair, book rate 1 of 10000", over, rates)?;
    let unrated = release_rate(clock, slots, rates, last, 1);
    show_last(rt, "last pair, release rate 1 of 10000", unrated, rates)
}

// On runs of so many words.
fn last_on<const WORDS: usize>(rt: &impl Print) -> io::Result<()>
    requires words { WORDS ≤ 1025 }
{
    let mut slots = [0; WORDS];
    let mut rates = [0; WORDS];
    let mut queues = [0; WORDS];
    let clock = clock(32, 10_000, 10_000);
    book_last(rt, clock, &mut slots, &rates)?;
    rate_last(rt, clock, &slots, &mut rates)?;
    let arrived = arrive(clock, &mut queues, pair(32, 32), 65_535);
    show_last(rt, "last pair, arrive 65535", arrived, &queues)
}

pub fn last_pair(rt: &impl Print) -> io::Result<()> {
    last_on::<1024>(rt)?;
    last_on::<1025>(rt)?;
    last_on::<1023>(rt)
}

// The largest words everywhere: each booking counts as the largest number, and no sum wraps.
pub fn largest_words(rt: &impl Print) -> io::Result<()> {
    let mut slots = [u32::MAX; 1024];
    let mut rates = [u32::MAX; 1024];
    let clock = clock(32, 10_000, 1);
    let last = pair(32, 32);
    let booked = book(clock, &mut slots, &rates, last, BookedSlots(1));
    show_last(rt, "largest words, book 1", booked, &slots)?;
    let rated = book_rate(clock, &slots, &mut rates, last, 1);
    show_last(rt, "largest words, book rate 1 of 1", rated, &rates)?;
    let released = release(clock, &mut slots, &rates, last, BookedSlots(10_000));
    show_last(rt, "largest words, release 10000", released, &slots)?;
    let unrated = release_rate(clock, &slots, &mut rates, last, 1);
    show_last(rt, "largest words, release rate 1 of 1", unrated, &rates)
}
