// What a pair has booked, worked out from its slots and its summed rate: of one pair, its rise by a further rate, and of all pairs as words.
// Stays (a): a count stands beside lent runs, since a run that is too short or too long is lent too, and a short one is left as it is (`words::copy_words`,
// and the clause `to_exit`).
#![tactic(auto)]

mod amounts;

ghost use Rattle.std.specs.Prelude.{◌≡◌, ◌^◌, ◌≤◌, ◌<◌, ℕ, bit_or, get_or, length};
ghost use Rattle.std.specs.List.{fold};
ghost use Rattle.wsgs.specs.Words.{copied};
ghost use Rattle.wsgs.specs.Bookings.{booking, booking_words};
ghost use Rattle.words.specs.Runs.{copy_words};
ghost use Rattle.bookings.specs.Rises.{rise_of, has_rate};

use amounts::booked;
use wsgs::{BookRuns, BookedSlots, Clock, Credits, MAX_FRAME};

// A pair's booking: its slots, and the slots of its summed rate on the line.
pub fn booking(clock: Clock, slots: BookedSlots, rate: u32) -> BookedSlots
    ensures result { result.0 ≡ booking clock.frame clock.line slots.0 rate }
    ensures fits { result.0 < 2 ^ 32 }
{
    booked(clock, slots, rate as u64)
}

// How far a pair's booking rises where its summed rate rises by more; 0 for a frame that is longer than that of any switch.
pub fn rise(clock: Clock, slots: BookedSlots, rate: u32, more: u32) -> BookedSlots
    ensures result { result.0 ≡ rise_of clock.frame clock.line slots.0 rate more }
    ensures fits { result.0 < 2 ^ 32 }
{
    if clock.frame as u64 > MAX_FRAME {
        return BookedSlots(0);
    }
    let summed = rate as u64 + more as u64;
    let raised = booked(clock, slots, summed);
    let present = booking(clock, slots, rate);
    BookedSlots(raised.0 - present.0)
}

// Whether one of the first count rates is above 0, or the run has fewer. Without a rate the bookings are the slots.
pub fn has_rate(rates: &[u32], count: usize) -> bool
    ensures result { result ≡ has_rate count rates.now }
{
    let Some(first) = rates.get(..count) else {
        return true;
    };
    union_of(first) > 0
}

// The bits that any of the words has.
fn union_of(words: &[u32]) -> u32
    ensures union { result ≡ fold bit_or 0 words.now }
{
    words.iter().fold(0, |union, word| union | word)
}

// What the words of a run are: slots that are booked, or credits. `word` makes the one or the other of the slots that are booked, and gives its word.
pub trait BookingWord {
    fn word(booked: BookedSlots) -> u32
        requires fits { booked.0 < 2 ^ 32 }
        ensures word { result ≡ booked.0 };
}

impl BookingWord for BookedSlots {
    fn word(booked: BookedSlots) -> u32 {
        booked.0 as u32
    }
}

impl BookingWord for Credits {
    fn word(booked: BookedSlots) -> u32 {
        credits_for(booked).0
    }
}

// A credit for each booked slot.
fn credits_for(booked: BookedSlots) -> Credits
    requires fits { booked.0 < 2 ^ 32 }
    ensures same { result.0 ≡ booked.0 }
{
    Credits(booked.0 as u32)
}

// The first count words of a run become the bookings at these places, or the credits for them; where a run has fewer, all stay as they are.
// Stays (b): two ways, since a copy of the slots alone takes 404 ns of a tick of 32 ports where the bookings worked out take 2,657 ns (README, Which form).
// Inlined, since both forms call it: as a call it made a tick of 8 ports and more 10 % slower.
#[inline(always)]
pub fn copy_bookings<W: BookingWord>(clock: Clock, book: BookRuns<'_>, to: &mut [u32], count: usize)
    ensures to_exit { to.new ≡ copy_words count
        (booking_words clock.frame clock.line book.entry.slots.now book.entry.rates.now) to.old }
{
    if has_rate(book.rates, count) {
        copy_worked_out::<W>(clock, book, to, count);
    } else {
        copy_slots::<W>(book.slots, to, count);
    }
}

// The first count words of a run become the slots that are booked at these places of another, or the credits for them; where either has fewer, both stay as
// they are. Without a rate the bookings are the slots.
pub fn copy_slots<W: BookingWord>(slots: &[u32], to: &mut [u32], count: usize)
    ensures to_exit { to.new ≡ copy_words count slots.now to.old }
    ensures words { (at : ℕ) → get_or slots.now at 0 < 2 ^ 32 }
{
    if count <= slots.len() && count <= to.len() {
        copy_first_slots::<W>(slots, to, count);
    }
}

// The first count slots copied, where both runs have them.
fn copy_first_slots<W: BookingWord>(slots: &[u32], to: &mut [u32], count: usize)
    requires slots_long { count ≤ length slots.now }
    requires to_long { count ≤ length to.old }
    ensures to_exit { to.new ≡ copied count slots.now to.old }
{
    // Stays (c): as in `copy_first`.
    for (at, booked) in slots[..count].iter().enumerate() {
        to[at] = W::word(BookedSlots::from(*booked));
    }
}

// The bookings copied, where there is a rate or a run has fewer words.
fn copy_worked_out<W: BookingWord>(clock: Clock, book: BookRuns<'_>, to: &mut [u32], count: usize)
    ensures to_exit { to.new ≡ copy_words count
        (booking_words clock.frame clock.line book.entry.slots.now book.entry.rates.now) to.old }
{
    let BookRuns { slots, rates } = book;
    if count <= slots.len() && count <= rates.len() && count <= to.len() {
        copy_first::<W>(clock, book, to, count);
    }
}

// The first count bookings copied, where all runs have them.
fn copy_first<W: BookingWord>(clock: Clock, book: BookRuns<'_>, to: &mut [u32], count: usize)
    requires slots_long { count ≤ length book.slots.now }
    requires rates_long { count ≤ length book.rates.now }
    requires to_long { count ≤ length to.old }
    ensures to_exit { to.new ≡ copied count
        (booking_words clock.frame clock.line book.entry.slots.now book.entry.rates.now) to.old }
{
    // Stays (c): tried with `to.iter_mut()` in the zip; of a run lent so a proof knows no word after the loop.
    for (at, (held, rate)) in book.slots[..count].iter().zip(book.rates).enumerate() {
        to[at] = W::word(booking(clock, BookedSlots::from(*held), *rate));
    }
}
