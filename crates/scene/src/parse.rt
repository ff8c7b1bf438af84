// A scene file's text as values.
ghost use Rattle.std.specs.Prelude.{◌≡◌};
ghost use Rattle.text.specs.Lines.{lines_left};
ghost use Rattle.text.specs.Told.{Gives, GivesFile};
ghost use Rattle.scene.specs.Scene.{item_line, items_after, scene_of};

use super::content::{Item, SceneFile};
use super::scene_line::{console_line, element_line, pixels_line};
use std::alloc::Global;
use text::{BadLine, Lines, Problem, Words, first_line};

// A line after the console's, for a memory of that many pixels.
fn item_line(mut line: Words<'_>, pixels: u32, items: &mut Vec<Item>) -> Result<(), Problem>
    ensures { Gives (λ _. items.new.items) result (item_line pixels items.old.items line.entry) }
{
    match line.next() {
        None => Ok(()),
        Some(b"pixels") => pixels_line(line, pixels, items),
        Some(b"element") => Ok(items.push(Item::Element(element_line(line)?))?),
        Some(b"console") => Err(Problem::SecondConsole),
        Some(_) => Err(Problem::UnknownLine),
    }
}

// The items of the lines that follow the console's.
fn read_items(lines: Lines<'_>, pixels: u32, items: &mut Vec<Item>) -> Result<(), BadLine>
    ensures { GivesFile (λ _. items.new.items) result (items_after pixels lines.entry.before items.old.items (lines_left lines.entry)) }
{
    for (number, line) in lines {
        item_line(Words::of(line), pixels, items).map_err(|problem| BadLine {
            line: number,
            problem,
        })?;
    }
    Ok(())
}

// The scene of a file, or its first line that is wrong.
pub fn parse_scene(heap: Global, text: &[u8]) -> Result<SceneFile, BadLine>
    ensures { GivesFile (λ file. (file.console, file.items.items)) result (scene_of text.now) }
{
    let (line, first, rest) = first_line(text)?;
    let console = console_line(Words::of(first)).map_err(|problem| BadLine { line, problem })?;
    let mut items = Vec::new(heap);
    read_items(rest, console.pixels, &mut items)?;
    Ok(SceneFile { console, items })
}
