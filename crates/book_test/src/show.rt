// The clocks that the cases begin with, and how lines show a clock, words and an answer.
// Stays (a): a clock has a word of any value for the kind of the book, as C lends it. (d): `clock`, `clock_of_kind` and `pair` are constructors; a From would take
// their numbers without names, and only crates/wsgs may write it.
use std::fmt;
use wsgs::{Clock, Input, Output, Pair, Refused};

// A clock that has run nine slots, with a plain book; and with a word of its own for the kind of the book.
pub fn clock(ports: u32, frame: u32, line: u32) -> Clock {
    clock_of_kind(ports, frame, line, 0)
}

pub fn clock_of_kind(ports: u32, frame: u32, line: u32, fine: u32) -> Clock {
    Clock {
        ports,
        frame,
        slot: 9,
        line,
        fine,
    }
}

// The pair of two numbers.
pub fn pair(input: u64, output: u64) -> Pair {
    Pair {
        input: Input(input),
        output: Output(output),
    }
}

// The number of an answer, 0 for one that is accepted.
pub fn number(outcome: Result<(), Refused>) -> u32 {
    outcome.err().map_or(0, u32::from)
}

// A clock as its five words.
#[derive(Clone, Copy)]
pub struct Shown(pub Clock);

impl fmt::Display for Shown {
    fn fmt<W: fmt::Write>(&self, f: &mut fmt::Formatter<W>) -> fmt::Result {
        let Shown(clock) = *self;
        write!(
            f,
            "clock {} {} {} {} {}",
            clock.ports, clock.frame, clock.slot, clock.line, clock.fine
        )
    }
}

// The words at some places of a run, where it has them.
#[derive(Clone, Copy)]
pub struct WordsAt<'a>(pub &'a [u32], pub &'a [usize]);

impl fmt::Display for WordsAt<'_> {
    fn fmt<W: fmt::Write>(&self, f: &mut fmt::Formatter<W>) -> fmt::Result {
        let WordsAt(run, places) = *self;
        for place in places {
            if let Some(word) = run.get(*place) {
                write!(f, " {word}")?;
            }
        }
        Ok(())
    }
}
