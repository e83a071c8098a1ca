// Stays (d), of the clauses on the ports: each is of one function that works on a number of ports alone; a type for a number up to 32 would be made by each caller
// from the number that its own clause bounds.
//
// The rows in flight: 2N rows of N words, row (s mod 2N) for slot s. A word is 0 for none, j for output j by pass two, and 100 + j by pass one;
// any other is read as 0.
ghost use Rattle.std.specs.Prelude.{◌≡◌, ℕ, ◌+◌, ◌-◌, ◌*◌, ◌%◌, ◌<◌, ◌≤◌, not, length};
ghost use Rattle.wsgs.specs.Basics.{Port};
ghost use Rattle.wsgs.specs.Steps.{outputs_of, pass_word_of};
ghost use Rattle.wsgs.specs.Pipelined.{by_first, output_in, standing, handed_out, row_cleared};
ghost use Rattle.turns.specs.Masks.{in_mask};
ghost use Rattle.turns.specs.Charges.{output_told, HasNumber};
ghost use Rattle.pipelined.specs.Turnings.{InputOf};

use std::num::wrapping_sub_u32;
use turns::masks::{all_free, take};
use wsgs::{Clock, Input, Output, Served};

// Where the row of a slot begins.
pub fn row_of(ports: usize, slot: u64) -> usize
    requires ports { Port 32 ports }
    ensures is { result ≡ slot % (2 * ports) * ports }
    ensures within { result + ports ≤ 2 * ports * ports }
{
    (slot % (2 * ports as u64)) as usize * ports
}

// Where the row begins that stands as many rows before another as an input's number says. Before row 0 stands row 2N - 1.
pub fn row_before(ports: usize, row: usize, input: Input) -> usize
    requires input { InputOf ports input.0 }
    requires row { row < 2 * ports }
    ensures is { (s : ℕ) → row ≡ s % (2 * ports) → input.0 ≤ s → result ≡ (s - input.0) % (2 * ports) * ports }
    ensures within { result + ports ≤ 2 * ports * ports }
{
    let back = input.0 as usize;
    if back <= row {
        return (row - back) * ports;
    }
    (row + 2 * ports - back) * ports
}

// Whether a word in flight stands for an output by pass one. A word below 101 wraps to one far above the ports, so one comparison suffices.
pub fn is_by_first(ports: u32, word: u32) -> bool
    requires few_ports { ports ≤ 32 }
    ensures tested { result ≡ by_first ports word }
{
    wrapping_sub_u32(word, 101) < ports
}

// The column, from 0 on, of the output that a word in flight stands for; where it stands for none, a number that is not below the ports.
fn column_in(ports: u32, word: u32) -> u32
    requires few_ports { ports ≤ 32 }
    ensures some { result < ports → output_in ports word ≡ result + 1 }
    ensures none { ports ≤ result → output_in ports word ≡ 0 }
{
    if is_by_first(ports, word) {
        return word - 101;
    }
    wrapping_sub_u32(word, 1)
}

// The output that a word in flight stands for.
pub fn output_of(ports: usize, word: u32) -> Option<Output>
    requires few_ports { ports ≤ 32 }
    ensures some { HasNumber result }
    ensures read { output_told result ≡ output_in ports word }
    ensures within { output_told result ≤ ports }
{
    let highest = ports as u32;
    let column = column_in(highest, word);
    if column < highest {
        return Some(Output(column as u64 + 1));
    }
    None
}

// The byte that tells an output, 0 for none.
fn byte_of(output: Option<Output>) -> u8
    requires fits { output_told output ≤ 32 }
    ensures told { result ≡ output_told output }
{
    match output {
        Some(output) => output.0 as u8,
        None => 0,
    }
}

// Stays (a): a rule of the project has the rows in flight as a run of words that is indexed by row and column.
//
// The outputs that are free for a slot: those that do not stand in its row. The row is given by where it begins. A word that stands for none
// takes an output past the ports, so that no word needs a branch and the loop compiles to vector instructions.
pub fn free_for(ports: usize, row: usize, flight: &[u32]) -> u32
    requires few_ports { ports ≤ 32 }
    requires row_fits { row + ports ≤ length flight.now }
    ensures free { (s : ℕ) → row ≡ s % (2 * ports) * ports
        → (j : ℕ) → Port ports j → in_mask result j ≡ not (standing ports flight.now s j) }
{
    let highest = ports as u32;
    let mut free = all_free(ports);
    for column in 0..ports {
        let standing = column_in(highest, flight[row + column]);
        free = take(free, Output(standing as u64 + 1));
    }
    free
}

// Stays (a): as `free_for`; an output stands in the answer at its input's place.
//
// The pairs that the row of the slot after a clock's hands out. The row is then set to 0.
pub fn hand_out(clock: Clock, flight: &mut [u32]) -> Served
    requires ports { Port 32 clock.ports }
    requires flight_fits { 2 * clock.ports * clock.ports ≤ length flight.old }
    ensures outputs { result.outputs ≡ outputs_of (handed_out clock.ports flight.old (clock.slot + 1)) }
    ensures first_pass { result.first_pass ≡ pass_word_of (handed_out clock.ports flight.old (clock.slot + 1)) }
    ensures flight_exit { flight.new ≡ row_cleared clock.ports flight.old (clock.slot + 1) }
{
    let highest = clock.ports;
    let ports = highest as usize;
    let row = row_of(ports, clock.slot as u64 + 1);
    let mut outputs = [0u8; 32];
    let mut first_pass = 0u32;
    for column in 0..ports {
        let word = flight[row + column];
        flight[row + column] = 0;
        outputs[column] = byte_of(output_of(ports, word));
        if is_by_first(highest, word) {
            first_pass |= 1 << column;
        }
    }
    Served {
        outputs,
        first_pass,
    }
}
