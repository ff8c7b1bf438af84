// A picture as a binary portable pixmap, P6.
ghost use Rattle.std.specs.Prelude.{◌≡◌};
ghost use Rattle.report.specs.Output.{Appends};
ghost use Rattle.report.specs.Ppm.{channels as channelBytes, ppm as ppmOf};

use crate::append::append;
use model::Size;
use std::alloc::AllocError;

// The header and the pixels, which are to be as many as the size says.
pub fn write_ppm(out: &mut Vec<u8>, size: Size, pixels: &[u32]) -> Result<(), AllocError>
    ensures { Appends result out.old.items (ppmOf size pixels.now) out.new.items }
{
    let Size { width, height } = size;
    append(out, format_args!("P6\n{width} {height}\n255\n"))?;
    // One `extend` by a `flat_map` over the channels takes four times as long.
    for pixel in pixels {
        out.extend_from_slice(&channels(*pixel))?;
    }
    Ok(())
}

// The red, green and blue of a pixel.
fn channels(pixel: u32) -> [u8; 3]
    ensures { result ≡ channelBytes pixel }
{
    let [blue, green, red, _] = pixel.to_le_bytes();
    [red, green, blue]
}
