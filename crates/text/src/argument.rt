// The arguments of a line, read from left to right.
ghost use Rattle.std.specs.Prelude.{◌≡◌};
ghost use Rattle.text.specs.Argument.{fixed_word, line_end};
ghost use Rattle.text.specs.Lines.{first_of, after_first};

use super::number::Number;
use super::problem::{Argument, Problem};
use super::words::Words;

impl Words<'_> {
    // The next word as a number, of the type that the caller wants.
    pub fn number<N: Number>(&mut self, name: Argument) -> Result<N, Problem>
        ensures value { result ≡ N.argument name (first_of self.old) }
        ensures left { self.new ≡ after_first self.old }
    {
        let word = self.next().ok_or(Problem::Missing(name))?;
        N::read(word, name)
    }

    // A word that is always the same; what else stands there is that problem.
    #[tactic(auto, unfolding(crate::specs::Argument::fixed_word))]
    pub fn fixed(&mut self, text: &[u8], problem: Problem) -> Result<(), Problem>
        ensures value { result ≡ fixed_word text.now problem (first_of self.old) }
        ensures left { self.new ≡ after_first self.old }
    {
        if self.next().is_some_and(|word| word == text) {
            Ok(())
        } else {
            Err(problem)
        }
    }

    // No word is left.
    #[tactic(auto, unfolding(crate::specs::Argument::line_end))]
    pub fn end(&mut self) -> Result<(), Problem>
        ensures { result ≡ line_end (first_of self.old) }
    {
        match self.next() {
            Some(_) => Err(Problem::WordTooMany),
            None => Ok(()),
        }
    }
}
