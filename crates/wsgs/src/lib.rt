// The WSGS slot scheduler: the types that its definitions and its code share. The definitions stand in specs/, the theorems in proofs/.
#![tactic(auto)]

ghost use Rattle.wsgs.specs.Told.{AreSlots, HasNumber};

// The limits that calls are held to: ports of a switch; slots of a frame; packets that arrive by one call; packets in a queue; the rate of a
// line, in kbit/s; and the slots that a clock can run.
pub const MAX_PORTS: u64 = 32;

pub const MAX_FRAME: u64 = 10_000;

pub const MAX_ARRIVAL: u64 = 65_535;

pub const MAX_QUEUE: u64 = 1_000_000;

pub const MAX_LINE_RATE: u64 = 100_000_000;

pub const MAX_SLOT: u32 = 4_000_000_000;

// The number of ports, the length of a frame, the last slot run, the rate of a line in kbit/s, 0 for none, and the kind of the book: 0 for the
// plain one, anything else for the fine one.
// Stays (a): C lends a clock as five words, any of which a tick gives back as it was (`c_tick_of`), so the kind is a word and no `BookKind`.
#[derive(Clone, Copy)]
pub struct Clock {
    pub ports: u32,
    pub frame: u32,
    pub slot: u32,
    pub line: u32,
    pub fine: u32,
}

// The number of an input, and of an output, from 1 on.
// Stays (a): a rule of the project gives each of these numbers a tuple struct of its own, so that none is taken for another.
#[derive(Clone, Copy, Debug, PartialEq, Eq)]
pub struct Input(pub u64);

#[derive(Clone, Copy, Debug, PartialEq, Eq)]
pub struct Output(pub u64);

// Slots of each frame that are booked for a pair, and the credits that the pair has left in the present frame.
// Stays (a): tuple structs, as above.
#[derive(Clone, Copy)]
pub struct BookedSlots(pub u64);

#[derive(Clone, Copy)]
pub struct Credits(pub u32);

// A word of the book as what it is: slots that are booked.
impl From<u32> for BookedSlots {
    ghost from_gives = { AreSlots };

    fn from(word: u32) -> BookedSlots {
        BookedSlots(word as u64)
    }
}

// The two ports of a call on a pair.
#[derive(Clone, Copy, Debug, PartialEq, Eq)]
pub struct Pair {
    pub input: Input,
    pub output: Output,
}

// The forms of a switch, and the kinds of book that a start gives it.
#[derive(Clone, Copy, Debug, PartialEq, Eq)]
pub enum Form {
    Direct,
    Pipelined,
}

#[derive(Clone, Copy, Debug, PartialEq, Eq)]
pub enum BookKind {
    Plain,
    Fine,
}

// Why a call or a record is refused. A caller is told the number (docs/RULES.md, The questions).
#[derive(Clone, Copy, Debug, PartialEq, Eq)]
pub enum Refused {
    Ports = 1,
    Frame = 2,
    ShortFrame = 3,
    Runs = 4,
    Pair = 5,
    Amount = 6,
    Clock = 7,
    Row = 8,
    Column = 9,
    Held = 10,
    Queue = 11,
    Record = 12,
    Fields = 13,
    Number = 14,
    Sharing = 15,
}

impl From<Refused> for u32 {
    ghost from_gives = { HasNumber };

    fn from(refused: Refused) -> u32 {
        refused as u32
    }
}

// The lent runs of a book, for reading; those that turns go by and change; and those that a pipelined switch has besides.
#[derive(Clone, Copy)]
pub struct BookRuns<'a> {
    pub slots: &'a [u32],
    pub rates: &'a [u32],
}

#[derive(Drop)]
pub struct TurnRuns<'a> {
    pub credits: &'a mut [u32],
    pub queues: &'a mut [u32],
    pub given: &'a mut [u32],
}

#[derive(Drop)]
pub struct PipelineRuns<'a> {
    pub copy: &'a mut [u32],
    pub flight: &'a mut [u32],
}

// The pairs of a slot: the output of each input from 1 on, 0 for none; and a word whose bit i - 1 tells that input i was served by pass one.
// Stays (a): a rule of the project has the answer as a `[u8; 32]`, 0 for none, beside the pass-one word, which is what C is given.
#[derive(Clone, Copy)]
pub struct Served {
    pub outputs: [u8; 32],
    pub first_pass: u32,
}

// An accepted tick: the clock afterwards, and the pairs that it hands out.
#[derive(Clone, Copy)]
pub struct Ticked {
    pub clock: Clock,
    pub served: Served,
}

// What a preview tells: what the operation would give, and the sums of bookings that would follow, of the input's row and of the output's column.
#[derive(Clone, Copy)]
pub struct Previewed {
    pub outcome: Result<(), Refused>,
    pub row: u64,
    pub column: u64,
}

// The operations of the event program.
#[derive(Clone, Copy, Debug, PartialEq, Eq)]
pub enum Operation {
    Start,
    Pipe,
    Book,
    Release,
    Arrive,
    Tick,
}

// What an event record asks for: an operation with the numbers of the three other fields.
#[derive(Clone, Copy)]
pub struct Request {
    pub operation: Operation,
    pub input: u64,
    pub output: u64,
    pub amount: u64,
}

// A refusal as its line of the event program has it: the last slot run, the record's second and third field, and the number of the refusal.
// Stays (a): `lines::refusal_line` prints any number but 0, also one that is no number of a `Refused`, so the number is a word.
#[derive(Clone, Copy)]
pub struct RefusalLine {
    pub slot: u64,
    pub input: u64,
    pub output: u64,
    pub number: u32,
}
