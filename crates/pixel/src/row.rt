// A row of an element drawn on a row of a frame.
ghost use Rattle.pixel.specs.Row.{RowDrawn};

use super::over::lay;
use model::Element;

// Lays the pixels `from` of an element on the row `to`, as far as both go.
pub fn draw_row(to: &mut [u32], from: &[u32], e: &Element)
    ensures { RowDrawn e.now from.now to.old to.new }
{
    // No zip of the two: of what was written through an adapter of `iter_mut`, nothing can be proved.
    for (i, below) in to.iter_mut().enumerate() {
        let Some(pixel) = from.get(i) else { break };
        *below = lay(e, *pixel, *below);
    }
}
