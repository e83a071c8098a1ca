// Runs of lent words cleared and copied, where they are long enough; and where the words of a pair stand.
#![tactic(auto)]

pub mod places;

ghost use Rattle.std.specs.Prelude.{◌≡◌, ◌≤◌, length};
ghost use Rattle.wsgs.specs.Words.{cleared, copied};
ghost use Rattle.words.specs.Runs.{clear_words, copy_words};

// Sets the first count words to 0; a run that has fewer stays as it is.
// Stays (a): count is no length of the run, which C lends as long as it likes: run_exit says what is set and that the rest stays.
pub fn clear_words(run: &mut [u32], count: usize)
    ensures run_exit { run.new ≡ clear_words count run.old }
{
    if count <= run.len() {
        run[..count].fill(0);
    }
}

// Copies the first count words of one run over those of another; where either has fewer, both stay as they are.
// Stays (a): as clear_words.
pub fn copy_words(from: &[u32], to: &mut [u32], count: usize)
    ensures to_exit { to.new ≡ copy_words count from.now to.old }
{
    if count <= from.len() {
        if count <= to.len() {
            copy_first(from, to, count);
        }
    }
}

// The first count words copied, where both runs have them.
// Stays (a): `copy_from_slice` calls memmove, and the library for C calls memset and memcpy alone (include/kivdrag.h, tests/install).
fn copy_first(from: &[u32], to: &mut [u32], count: usize)
    requires from_long { count ≤ length from.now }
    requires to_long { count ≤ length to.old }
    ensures to_exit { to.new ≡ copied count from.now to.old }
{
    for i in 0..count {
        to[i] = from[i];
    }
}
