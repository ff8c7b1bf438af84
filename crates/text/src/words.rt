// The words of a line, one after another.
ghost use Rattle.std.specs.Prelude.{◌≡◌, ◌≤◌, ◌<◌, [], ◌∷◌, length, IfSome, MatchOption};
ghost use Rattle.std.specs.List.{prefix_len};
ghost use Rattle.std.specs.Iterator.{YieldsFirstBy, item_count};
ghost use Rattle.text.specs.Bytes.{blank, in_word};
ghost use Rattle.text.specs.Words.{words};

use std::marker::Model;

// Whether a byte stands between words.
fn is_blank(byte: u8) -> bool
    ensures { result ≡ blank byte }
{
    matches!(byte, b' ' | b'\t' | b'\r')
}

// How many blanks are in front. A function of any run of bytes would need a clause on the test
// that it is given, and so be longer than the chains here and in lines.rt.
fn blanks(line: &[u8]) -> usize
    ensures count { result ≡ prefix_len blank line.now }
    ensures bound { result ≤ length line.now }
{
    line.iter().take_while(|byte| is_blank(**byte)).count()
}

// How many bytes the word in front has.
fn word_length(line: &[u8]) -> usize
    ensures count { result ≡ prefix_len in_word line.now }
    ensures bound { result ≤ length line.now }
{
    line.iter()
        .take_while(|byte| !is_blank(**byte) && **byte != b'#')
        .count()
}

// The first word, and what follows it.
fn split_word(line: &[u8]) -> Option<(&[u8], &[u8])>
    ensures parts { MatchOption result (words line.now ≡ []) (λ p. words line.now ≡ p.0.now ∷ words p.1.now) }
{
    let (_, line) = line.split_at(blanks(line));
    let (word, rest) = line.split_at(word_length(line));
    (!word.is_empty()).then_some((word, rest))
}

// The words that are left of a line.
#[derive(Drop)]
pub struct Words<'a> {
    rest: &'a [u8],
}

impl<'a> Model for Words<'a> {
    ghost use Rattle.std.specs.Prelude.{List, ℕ};
    ghost use Rattle.text.specs.Words.{words};

    ghost Value = { List (List ℕ) };

    ghost view = { λ w. words w.rest.now };
}

impl<'a> Words<'a> {
    pub fn of(line: &'a [u8]) -> Words<'a>
        ensures { result ≡ words line.now }
    {
        Words { rest: line }
    }

    // What is left of the line, from the end of the last word on.
    pub fn rest(&self) -> &'a [u8]
        ensures { self.now ≡ words result.now }
    {
        self.rest // with the blanks in front
    }
}

impl<'a> Iterator for Words<'a> {
    type Item = &'a [u8];

    ghost next_gives = { YieldsFirstBy (λ word. word.now) (λ left. left) };

    ghost remaining = { item_count (λ left. left) };

    fn next(&mut self) -> Option<&'a [u8]> {
        let (word, rest) = split_word(self.rest)?;
        self.rest = rest;
        Some(word)
    }
}
