// Drawing into a frame: pixels that stand row by row, as many as its size has.
ghost use Rattle.std.specs.Prelude.{◌≡◌, ℕ, ◌+◌, ◌-◌, ◌*◌, ◌<◌, ◌≤◌, true, ◌&&◌, length, if◌then◌else◌, nat_eq, nat_le, nat_lt, slice_index};
ghost use Rattle.model.specs.Buffer.{all_sound};
ghost use Rattle.model.specs.Scene.{laid, drawn, picture};
ghost use Rattle.raster.specs.Raster.{IsFrame, raster};
ghost use Rattle.raster.specs.Sound.{Sound};

use super::clip::clip;
use super::frame::clear_frame;
use model::{Element, Size};

// The pixels of row `v` of an element, `count` of them from column `u` on.
fn span_row<'m>(memory: &'m [u32], e: &Element, u: usize, v: usize, count: usize) -> &'m [u32]
    requires sound { Sound (length memory.now) e.now }
    requires row { v < e.now.height }
    requires columns { u + count ≤ e.now.width }
    ensures size { length result.now ≡ count }
    ensures pixels { (k : ℕ) → k < count → slice_index result.now k ≡ slice_index memory.now (e.now.first + v * e.now.stride + (u + k)) }
{
    let start = e.first as usize + v * e.stride as usize + u;
    &memory[start..start + count]
}

// The lender has its pixels back, with what was drawn, when the frame is gone.
#[derive(Drop)]
pub(crate) struct Frame<'a> {
    pub(crate) pixels: &'a mut [u32],
    pub(crate) size: Size,
    ghost long: { IsFrame size pixels.now },
}

impl<'a> Frame<'a> {
    ghost use Rattle.raster.specs.Redrawn.{Redrawn};

    // Draws pixels of an element on row `y`, from column `x` on.
    fn put_row(&mut self, x: usize, y: usize, from: &[u32], e: &Element)
        requires row { y < self.old.size.height }
        requires columns { x + length from.now ≤ self.old.size.width }
        ensures { Redrawn (λ i j below. if nat_eq j y && (nat_le x i && nat_lt i (x + length from.now)) then laid e.now (slice_index from.now (i - x)) below else below) self.old self.new }
    {
        let start = y * self.size.width as usize + x;
        pixel::draw_row(&mut self.pixels[start..start + from.len()], from, e);
    }

    // Draws an element.
    fn draw(&mut self, e: &Element, memory: &[u32])
        requires sound { Sound (length memory.now) e.now }
        ensures { Redrawn (λ x y below. drawn memory.now x y below e.now) self.old self.new }
    {
        let across = clip(e.x, e.width as usize, self.size.width as usize);
        let down = clip(e.y, e.height as usize, self.size.height as usize);
        // By number: of what was written through the rows of `chunks_exact_mut`, nothing can be proved.
        for row in 0..down.count {
            let from = span_row(memory, e, across.skip, down.skip + row, across.count);
            self.put_row(across.from, down.from + row, from, e);
        }
    }

    // Makes the frame the picture of a scene.
    #[tactic(auto, using(crate::proofs::Sounds::all_sound_at))]
    pub(crate) fn draw_scene(&mut self, scene: &[Element], memory: &[u32])
        requires sound { all_sound (length memory.now) scene.now ≡ true }
        ensures lender { self.new.pixels.ghost_name ≡ self.old.pixels.ghost_name }
        ensures pixels { self.new.pixels.now ≡ raster self.old.size (picture scene.now memory.now) }
    {
        clear_frame(self.pixels);
        for e in scene {
            self.draw(e, memory);
        }
    }
}
