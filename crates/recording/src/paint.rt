// The pixels of a paint call.
ghost use Rattle.std.specs.Prelude.{[]};
ghost use Rattle.text.specs.Told.{Gives};
ghost use Rattle.recording.specs.Paint.{paint_pixels};

use std::alloc::Global;
use text::{Problem, Words, read_pixels};

// The pixels of all words that are left.
pub(crate) fn paint_pixels(heap: Global, line: Words<'_>) -> Result<Vec<u32>, Problem>
    ensures { Gives (λ pixels. pixels.items) result (paint_pixels [] line.entry) }
{
    let mut pixels = Vec::new(heap);
    for word in line {
        let run = read_pixels(word).ok_or(Problem::PixelForm)?;
        pixels.resize(pixels.len() + run.count as usize, run.pixel)?;
    }
    Ok(pixels)
}
