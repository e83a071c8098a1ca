// What an event record says: the questions to it in their order, its operation and its numbers.
#![tactic(auto)]

mod fields;

ghost use Rattle.std.specs.Prelude.{◌≡◌, Some};
ghost use Rattle.wsgs.specs.Records.{look_up, names, is_start, read_record};
ghost use Rattle.wsgs.specs.Told.{reading_told};

use fields::read_numbers;
use wsgs::{Operation, Refused, Request};

// The longest record that can be read, in bytes without its CR LF.
pub const MAX_RECORD: usize = 64;

// The operation that a record's first field names.
// Stays (d): a `TryFrom` would stand in wsgs, away from the names; here a missing field and an unknown name get one refusal by `and_then`.
#[tactic(auto, using(crate::proofs::Names::by_letters))]
fn look_up(text: &[u8]) -> Option<Operation>
    ensures operation { result ≡ look_up names text.now }
{
    match text {
        b"start" => Some(Operation::Start),
        b"pipe" => Some(Operation::Pipe),
        b"book" => Some(Operation::Book),
        b"release" => Some(Operation::Release),
        b"arrive" => Some(Operation::Arrive),
        b"tick" => Some(Operation::Tick),
        _ => None,
    }
}

// Whether an operation is a start or pipe.
fn is_start(operation: Operation) -> bool
    ensures answer { result ≡ is_start (Some operation) }
{
    matches!(operation, Operation::Start | Operation::Pipe)
}

// What a record says, where a start or pipe has been accepted before it or not.
// Stays (a): `running` is what the clause's `read_record` takes.
pub fn read_record(running: bool, text: &[u8]) -> Result<Request, Refused>
    ensures reading { reading_told result ≡ read_record running text.now }
{
    if text.len() > MAX_RECORD || text.contains(&b'"') {
        return Err(Refused::Record);
    }
    let mut fields = text.split(|byte| *byte == b',');
    let operation = fields.next().and_then(look_up).ok_or(Refused::Record)?;
    if !running && !is_start(operation) {
        return Err(Refused::Record);
    }
    let (Some(input), Some(output), Some(amount), None) = (
        fields.next(),
        fields.next(),
        fields.next(),
        fields.next(),
    ) else {
        return Err(Refused::Fields);
    };
    read_numbers(operation, input, output, amount)
}
