// A clock as C lends it: five words for the number of ports, the length of a frame, the last slot run, the rate of a line and the kind of the book.
ghost use Rattle.std.specs.Prelude.{◌≡◌};
ghost use Rattle.kivdrag_c.specs.Clocks.{clock_in_words, clock_words};

use wsgs::Clock;

// Stays (b), of both: tried as `From` to and from a struct of the five words, which is then copied on the way: up to 4.4 % more instructions a direct tick.
//
// The clock that words hold.
pub fn clock_in(words: &[u32; 5]) -> Clock
    ensures result { result ≡ clock_in_words words.now }
{
    Clock {
        ports: words[0],
        frame: words[1],
        slot: words[2],
        line: words[3],
        fine: words[4],
    }
}

// Stays (b): as `clock_in`.
//
// Writes a clock into its words.
pub fn put_clock(words: &mut [u32; 5], clock: Clock)
    ensures words_exit { words.new ≡ clock_words clock }
{
    *words = [clock.ports, clock.frame, clock.slot, clock.line, clock.fine];
}
