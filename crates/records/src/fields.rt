// The number fields of a record.
ghost use Rattle.std.specs.Prelude.{◌≡◌, Some};
ghost use Rattle.wsgs.specs.Text.{read_field};
ghost use Rattle.wsgs.specs.Told.{reading_told};
ghost use Rattle.wsgs.specs.Records.{unused_are_0};
ghost use Rattle.records.specs.Parts.{numbers_reading};

use wsgs::{Operation, Refused, Request};

const MAX_DIGITS: usize = 10;

// A field's number: one to ten decimal digits.
// Stays (d): `parse` of std takes a text with a sign before its digits and digits beyond ten, so the tests here would stay beside it.
#[tactic(auto, using(crate::proofs::Digits::reads))]
fn read_field(text: &[u8]) -> Option<u64>
    ensures number { result ≡ read_field text.now }
{
    if text.is_empty() || text.len() > MAX_DIGITS {
        return None;
    }
    let mut value = 0;
    for &byte in text {
        if !byte.is_ascii_digit() {
            return None;
        }
        value = value * 10 + u64::from(byte - b'0');
    }
    Some(value)
}

// Whether the fields that a request's operation does not use are 0.
fn unused_are_zero(request: Request) -> bool
    ensures answer { result
        ≡ unused_are_0 (Some request.operation) request.input request.output request.amount }
{
    match request.operation {
        Operation::Start | Operation::Pipe => request.amount == 0,
        Operation::Book | Operation::Release | Operation::Arrive => true,
        Operation::Tick => request.input == 0 && request.output == 0,
    }
}

// What an operation and three number fields say.
// Stays (d): the fields are texts, in the order of a record, and no ports yet.
#[tactic(auto, unfolding(wsgs::specs::Questions::first_no))]
pub fn read_numbers(
    operation: Operation,
    input: &[u8],
    output: &[u8],
    amount: &[u8],
) -> Result<Request, Refused>
    ensures reading { reading_told result ≡ numbers_reading operation
        (read_field input.now) (read_field output.now) (read_field amount.now) }
{
    let Some(input) = read_field(input) else {
        return Err(Refused::Number);
    };
    let Some(output) = read_field(output) else {
        return Err(Refused::Number);
    };
    let Some(amount) = read_field(amount) else {
        return Err(Refused::Number);
    };
    let request = Request {
        operation,
        input,
        output,
        amount,
    };
    if unused_are_zero(request) {
        Ok(request)
    } else {
        Err(Refused::Record)
    }
}
