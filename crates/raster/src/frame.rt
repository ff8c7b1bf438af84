// A frame memory: lent pixels, row by row, and the size that they should have.
ghost use Rattle.std.specs.Prelude.{◌≡◌, true, length};
ghost use Rattle.model.specs.Output.{sized};
ghost use Rattle.raster.specs.Frame.{has_sides as may_have, fits, frame_length as length_of, extent as size_of, blackened, painted, pixel_at};

use super::draw::Frame;
use super::sound::{are_sound, is_side};
use model::{Element, Size};

const BLACK: u32 = 0xff00_0000;

fn has_sides(size: Size) -> bool
    ensures { result ≡ may_have size }
{
    is_side(size.width) && is_side(size.height)
}

fn is_fit(size: Size, pixels: usize) -> bool
    ensures { result ≡ fits size pixels }
{
    has_sides(size) && pixels == size.pixels()
}

// How many pixels a frame memory of this size has: none where no output may have it.
pub fn frame_length(size: Size) -> usize
    ensures { result ≡ length_of size }
{
    if has_sides(size) { size.pixels() } else { 0 }
}

// The size of an output over a frame memory of `pixels` pixels: 0 x 0, which cannot be lit, where that does not fit the sides.
pub fn frame_size(size: Size, pixels: usize) -> Size
    ensures value { result ≡ size_of size pixels }
    ensures sized { sized result ≡ true }
{
    if is_fit(size, pixels) {
        size
    } else {
        Size::default()
    }
}

// The pixel in column `x` of row `y`, if the size has it.
pub fn frame_pixel(frame: &[u32], size: Size, x: u32, y: u32) -> Option<u32>
    ensures { result ≡ pixel_at size frame.now x y }
{
    let has_pixel = is_fit(size, frame.len()) && x < size.width && y < size.height;
    has_pixel.then(|| frame[y as usize * size.width as usize + x as usize])
}

// Makes every pixel black.
pub fn clear_frame(frame: &mut [u32])
    ensures { frame.new ≡ blackened frame.old }
{
    frame.fill(BLACK);
}

// Makes the pixels the picture of a scene, if that can be drawn into them; else they stay.
// Frame and size are two parameters, here and above: a presenter holds them as two, and `Frame` is only for one that fits.
pub fn draw_frame(frame: &mut [u32], size: Size, scene: &[Element], memory: &[u32])
    ensures { frame.new ≡ painted size frame.old scene.now memory.now }
{
    if is_fit(size, frame.len()) && are_sound(scene, memory.len()) {
        let mut frame = Frame {
            pixels: frame,
            size,
        };
        frame.draw_scene(scene, memory);
    }
}
