// The archive for the comparison with the second program: each export is the function of its name in crates/turns_c, with its promises written
// again. It is no part of the library for C.
// Stays (a): compare/tests/turn_calls/mod.rs calls these by name, with these signatures; each contract is that of crates/turns_c.
#![tactic(auto)]

ghost use Rattle.std.specs.Prelude.{◌≡◌};
ghost use Rattle.turns.specs.Requests.{first_requested, second_requested, first_output, second_output, first_looks, second_looks};
ghost use Rattle.turns.specs.Charges.{charged, noted};

// A turn of pass one: the output, 0 for none. The count of looks is written.
#[unsafe(no_mangle)]
pub extern "C" fn kivdrag_test_first_turn(
    free: u32,
    ports: usize,
    input: u64,
    credits: &mut [u32],
    queues: &mut [u32],
    given: &mut [u32],
    looks: &mut u32,
) -> u64
    ensures output { result
        ≡ first_output free (first_requested ports input credits.old queues.old)
        ports input credits.old queues.old given.old }
    ensures looks_exit { looks.new
        ≡ first_looks free (first_requested ports input credits.old queues.old)
        ports input credits.old queues.old given.old }
    ensures credits_exit { credits.new ≡ charged ports credits.old input result }
    ensures queues_exit { queues.new ≡ charged ports queues.old input result }
    ensures given_exit { given.new ≡ noted given.old input result }
{
    turns_c::kivdrag_test_first_turn(free, ports, input, credits, queues, given, looks)
}

// A turn of pass two.
#[unsafe(no_mangle)]
pub extern "C" fn kivdrag_test_second_turn(
    free: u32,
    ports: usize,
    input: u64,
    queues: &mut [u32],
    given: &mut [u32],
    looks: &mut u32,
) -> u64
    ensures output { result
        ≡ second_output free (second_requested ports input queues.old) ports input queues.old given.old }
    ensures looks_exit { looks.new
        ≡ second_looks free (second_requested ports input queues.old) ports input queues.old given.old }
    ensures queues_exit { queues.new ≡ charged ports queues.old input result }
    ensures given_exit { given.new ≡ noted given.old input result }
{
    turns_c::kivdrag_test_second_turn(free, ports, input, queues, given, looks)
}
