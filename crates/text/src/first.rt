// The first line of a file that has a word.
ghost use Rattle.std.specs.Prelude.{◌≡◌, ◌+◌, ◌≤◌, length, IfOk, Ok, Err, MatchResult};
ghost use Rattle.text.specs.Lines.{lines, lines_left};
ghost use Rattle.text.specs.First.{first_line};

use super::lines::Lines;
use super::problem::{BadLine, Problem};
use super::words::Words;

// Its number, the line and the lines after it. A text without one is named by its last line.
pub fn first_line(text: &[u8]) -> Result<(usize, &[u8], Lines<'_>), BadLine>
    ensures value { MatchResult result (λ found. first_line 0 (lines text.now) ≡ Ok (found.0, found.1.now, lines_left found.2)) (λ bad. first_line 0 (lines text.now) ≡ Err bad) }
    ensures bound { IfOk result (λ found. found.0 + length found.2.text ≤ length text.now) }
    ensures numbers { IfOk result (λ found. found.2.before ≡ found.0) }
{
    let mut lines = Lines::of(text);
    let mut last = 1;
    while let Some((number, line)) = lines.next() {
        if Words::of(line).next().is_some() {
            return Ok((number, line, lines));
        }
        last = number;
    }
    Err(BadLine {
        line: last,
        problem: Problem::NoConsole,
    })
}
