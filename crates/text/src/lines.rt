// The lines of a text, one after another.
ghost use Rattle.std.specs.Prelude.{◌≡◌, ◌≤◌, ◌<◌, [], ◌∷◌, length, IfSome, MatchOption};
ghost use Rattle.std.specs.List.{prefix_len};
ghost use Rattle.std.specs.Iterator.{at_most};
ghost use Rattle.text.specs.Bytes.{in_line};
ghost use Rattle.text.specs.Lines.{lines, NextLine};

use std::marker::Model;

// How many bytes the first line has without its end. At `blanks` in words.rt it says why there is
// no function for both.
fn line_length(text: &[u8]) -> usize
    ensures count { result ≡ prefix_len in_line text.now }
    ensures bound { result ≤ length text.now }
{
    text.iter().take_while(|byte| **byte != b'\n').count()
}

// The first line without its end, and what follows it.
fn split_line(text: &[u8]) -> Option<(&[u8], &[u8])>
    ensures parts { MatchOption result (lines text.now ≡ []) (λ p. lines text.now ≡ p.0.now ∷ lines p.1.now) }
    ensures shorter { IfSome result (λ p. length p.1.now < length text.now) }
{
    if text.is_empty() {
        return None;
    }
    match text.split_at(line_length(text)) {
        (line, [_, rest @ ..]) => Some((line, rest)),
        (line, []) => Some((line, &[])),
    }
}

// The lines that are left of a text, with their numbers from 1.
#[derive(Drop)]
pub struct Lines<'a> {
    rest: &'a [u8],
    // How many lines came before.
    before: usize,
}

impl<'a> Model for Lines<'a> {
    ghost use Rattle.std.specs.Prelude.{◌+◌, ◌^◌, ◌<◌, length};
    ghost use Rattle.text.specs.Lines.{LinesLeft};

    ghost Value = { LinesLeft };

    ghost view = { λ l. record { before = l.before; text = l.rest.now } };

    ghost invariant = { λ l. l.before + length l.rest.now < 2 ^ 64 };
}

impl<'a> Lines<'a> {
    pub fn of(text: &'a [u8]) -> Lines<'a>
        ensures { result ≡ record { before = 0; text = text.now } }
    {
        Lines {
            rest: text,
            before: 0,
        }
    }

    // The text that is left.
    pub fn rest(&self) -> &'a [u8]
        ensures { result.now ≡ self.now.text }
    {
        self.rest // with the ends of its lines
    }
}

impl<'a> Iterator for Lines<'a> {
    // A line without its end, after its number.
    type Item = (usize, &'a [u8]);

    ghost next_gives = { NextLine };

    ghost remaining = { λ left. at_most (length left.text) };

    fn next(&mut self) -> Option<(usize, &'a [u8])> {
        let (line, rest) = split_line(self.rest)?;
        self.rest = rest;
        self.before += 1;
        Some((self.before, line))
    }
}
