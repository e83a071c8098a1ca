// What the lines of direct_test and pipelined_test have in common: the clocks that their cases begin with, and what a tick answers.
#![tactic(auto)]

ghost use Rattle.std.specs.Prelude.{◌≡◌};
ghost use Rattle.wsgs.specs.Clocks.{clock_of};

use std::fmt;
use wsgs::{Clock, Refused, Served, Ticked};

// A clock, with something in the word for the kind of the book, which no tick changes.
// Stays (d): a constructor; a From would take the four as a tuple, without their names.
pub fn clock_at(ports: u32, frame: u32, slot: u32, line: u32) -> Clock
    ensures clock { result ≡ clock_of ports frame slot line 7 }
{
    Clock {
        ports,
        frame,
        slot,
        line,
        fine: 7,
    }
}

// The pairs of a slot, each as input>output/pass, and the word of pass one.
#[derive(Clone, Copy)]
struct Pairs(Served);

impl fmt::Display for Pairs {
    fn fmt<W: fmt::Write>(&self, f: &mut fmt::Formatter<W>) -> fmt::Result {
        let Served {
            outputs,
            first_pass,
        } = self.0;
        for (place, output) in outputs.iter().enumerate() {
            if *output > 0 {
                let pass = 2 - ((first_pass >> place) & 1);
                write!(f, " {}>{output}/{pass}", place + 1)?;
            }
        }
        write!(f, ", first pass {first_pass}")
    }
}

// The answer of a tick. A refused one leaves its clock, and has no pairs.
#[derive(Clone, Copy)]
pub struct Answer {
    pub before: Clock,
    pub result: Result<Ticked, Refused>,
}

impl fmt::Display for Answer {
    fn fmt<W: fmt::Write>(&self, f: &mut fmt::Formatter<W>) -> fmt::Result {
        let number = self.result.err().map_or(0, u32::from);
        let Ticked { clock, served } = self.result.unwrap_or(Ticked {
            clock: self.before,
            served: Served {
                outputs: [0; 32],
                first_pass: 0,
            },
        });
        write!(
            f,
            ": refusal {number}, slot {}, kind {}, pairs{}",
            clock.slot,
            clock.fine,
            Pairs(served)
        )
    }
}
