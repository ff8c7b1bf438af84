// The lines of a scene file; those after the console's past the word that says their kind.
ghost use Rattle.std.specs.Prelude.{◌≡◌, ◌+◌, ◌≤◌, IfOk};
ghost use Rattle.text.specs.Told.{Gives};
ghost use Rattle.scene.specs.SceneLine.{console_line, element_line, placed_pixels, pixels_line};

use super::content::{Console, Item};
use model::{Element, Size};
use text::{Argument, PixelRun, Problem, Words, read_pixels};

// console WIDTH HEIGHT composer PIXELS
// A recording's console has a presenter besides, and another problem: one function of both would be longer.
pub(crate) fn console_line(mut line: Words<'_>) -> Result<Console, Problem>
    ensures { result ≡ console_line line.entry }
{
    line.fixed(b"console", Problem::SceneStart)?;
    let width = line.number(Argument::Width)?;
    let height = line.number(Argument::Height)?;
    line.fixed(b"composer", Problem::SceneStart)?;
    let pixels = line.number(Argument::Pixels)?;
    line.end()?;
    Ok(Console {
        size: Size { width, height },
        pixels,
    })
}

// X Y FIRST WIDTH HEIGHT STRIDE FORMAT
pub(crate) fn element_line(mut line: Words<'_>) -> Result<Element, Problem>
    ensures { result ≡ element_line line.entry }
{
    let element = Element {
        x: line.number(Argument::X)?,
        y: line.number(Argument::Y)?,
        first: line.number(Argument::First)?,
        width: line.number(Argument::Width)?,
        height: line.number(Argument::Height)?,
        stride: line.number(Argument::Stride)?,
        format: line.number(Argument::Format)?,
    };
    line.end()?;
    Ok(element)
}

// The pixels that a word writes, where they fit a memory of `pixels` from the place `first` on.
fn read_placed(word: &[u8], first: u32, pixels: u32) -> Result<PixelRun, Problem>
    ensures value { result ≡ placed_pixels pixels first word.now }
    ensures fits { IfOk result (λ run. first + run.count ≤ pixels) }
{
    let run = read_pixels(word).ok_or(Problem::PixelForm)?;
    if u64::from(first) + u64::from(run.count) > u64::from(pixels) {
        return Err(Problem::PixelsPastEnd);
    }
    Ok(run)
}

// FIRST PIXEL..
pub(crate) fn pixels_line(
    mut line: Words<'_>,
    pixels: u32,
    items: &mut Vec<Item>,
) -> Result<(), Problem>
    ensures { Gives (λ _. items.new.items) result (pixels_line pixels items.old.items line.entry) }
{
    let mut first = line.number(Argument::First)?;
    for word in line {
        let run = read_placed(word, first, pixels)?;
        items.push(Item::Fill { first, run })?;
        first += run.count;
    }
    Ok(())
}
