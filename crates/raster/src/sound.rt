// Whether elements are as buffers of a pixel memory may be.
ghost use Rattle.std.specs.Prelude.{◌≡◌};
ghost use Rattle.model.specs.Buffer.{sound, all_sound};
ghost use Rattle.raster.specs.Frame.{side};

use model::{Element, Format};

// The longest side and the largest stride, in pixels.
const LONGEST: u32 = 4096;

// Whether a side of a buffer or of an output may be that long.
pub(crate) fn is_side(length: u32) -> bool
    ensures { result ≡ side length }
{
    (1..=LONGEST).contains(&length)
}

fn is_sound(e: &Element, pixels: usize) -> bool
    ensures { result ≡ sound pixels e.now }
{
    is_side(e.width)
        && is_side(e.height)
        && (e.width..=LONGEST).contains(&e.stride)
        && Format::try_from(e.format).is_ok()
        && e.first as usize + e.stride as usize * e.height as usize <= pixels
}

// Whether each element of a scene is as a buffer of a pixel memory of `pixels` pixels may be.
pub fn are_sound(scene: &[Element], pixels: usize) -> bool
    ensures { result ≡ all_sound pixels scene.now }
{
    scene.iter().all(|e| is_sound(e, pixels))
}
