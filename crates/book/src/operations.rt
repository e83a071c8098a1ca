// The operations on a book, each with its amount.
use wsgs::BookedSlots;

// Slots and rates, which are in kbit/s, are booked for a pair, and taken off it again.
#[derive(Clone, Copy)]
pub enum BookOperation {
    Book(BookedSlots),
    BookRate(u64),
    Release(BookedSlots),
    ReleaseRate(u64),
}
