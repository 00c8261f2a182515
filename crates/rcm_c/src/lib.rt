// The C interface: include/rcm.h. Each export is the function of `rcm` by its name, with its clauses: a crate of its own, as a static
// library is no library for others.
#![tactic(auto)]

ghost use Rattle.std.specs.Prelude.{◌≡◌};
ghost use Rattle.rules.specs.Verdict.{verdict_of};
ghost use Rattle.rules.specs.Host.{check_numbers, go_of, go_numbers, left_opened, left_output, left_state, object_of, open_of, open_numbers, part_numbers, test_of, test_numbers};

// The verdict on a module file.
#[unsafe(no_mangle)]
pub extern "C" fn rcm_check(file: &[u8], answer: &mut [u64; 4])
    ensures { answer.new ≡ check_numbers (verdict_of file.now) }
{
    rcm::rcm_check(file, answer)
}

// Opening: the first state of a module.
#[unsafe(no_mangle)]
pub extern "C" fn rcm_open(file: &[u8], arguments: &[u8], state: &mut [u8], answer: &mut [u64; 4])
    ensures answer { answer.new ≡ open_numbers (open_of file.now arguments.now state.old) }
    ensures state { state.new ≡ left_opened (open_of file.now arguments.now state.old) state.old }
{
    rcm::rcm_open(file, arguments, state, answer)
}

// Going on for at most budget steps.
#[unsafe(no_mangle)]
pub extern "C" fn rcm_go(
    file: &[u8],
    form: &[u8],
    state: &mut [u8],
    output: &mut [u8],
    budget: u64,
    answer: &mut [u64; 4],
)
    ensures answer { answer.new ≡ go_numbers (go_of file.now form.now state.old output.old budget) }
    ensures state { state.new ≡ left_state (go_of file.now form.now state.old output.old budget) state.old }
    ensures output { output.new ≡ left_output (go_of file.now form.now state.old output.old budget) output.old }
{
    rcm::rcm_go(file, form, state, output, budget, answer)
}

// The state test.
#[unsafe(no_mangle)]
pub extern "C" fn rcm_test(file: &[u8], state: &[u8], answer: &mut [u64; 4])
    ensures { answer.new ≡ test_numbers (test_of file.now state.now) }
{
    rcm::rcm_test(file, state, answer)
}

// The object around an address.
#[unsafe(no_mangle)]
pub extern "C" fn rcm_object(file: &[u8], state: &[u8], address: u32, answer: &mut [u64; 4])
    ensures { answer.new ≡ part_numbers (object_of file.now state.now address) }
{
    rcm::rcm_object(file, state, address, answer)
}
