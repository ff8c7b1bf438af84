// A word that is one of two.
ghost use Rattle.std.specs.Prelude.{◌≡◌};
ghost use Rattle.text.specs.Lines.{first_of, after_first};
ghost use Rattle.recording.specs.Choice.{either_word};

use text::{Problem, Words};

// The value that stands for the next word; what is neither of the two is that problem.
#[tactic(auto, unfolding(crate::specs::Choice::either_word))]
pub(crate) fn read_either<T: Copy>(
    line: &mut Words<'_>,
    first: (&[u8], T),
    second: (&[u8], T),
    problem: Problem,
) -> Result<T, Problem>
    ensures value { result ≡ either_word first.entry.0.now first.entry.1 second.entry.0.now second.entry.1 problem (first_of line.old) }
    ensures left { line.new ≡ after_first line.old }
{
    match line.next() {
        Some(word) if word == first.0 => Ok(first.1),
        Some(word) if word == second.0 => Ok(second.1),
        _ => Err(problem),
    }
}
