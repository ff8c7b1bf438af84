// The pixels that an output shows, as lines of a report.
ghost use Rattle.std.specs.Prelude.{◌≡◌, ◌<◌, [], ◌∷◌, ◌++◌, codes};
ghost use Rattle.report.specs.Digits.{hex as hexOf};
ghost use Rattle.report.specs.Output.{Appends};
ghost use Rattle.report.specs.Report.{glass_line, row_lines, separator as separatorOf};

use crate::append::append;
use crate::crc::crc32;
use std::alloc::AllocError;

// `glass CRC`, with the CRC-32 of the pixels.
pub fn write_glass(out: &mut Vec<u8>, pixels: &[u32]) -> Result<(), AllocError>
    ensures { Appends result out.old.items (glass_line pixels.now) out.new.items }
{
    write_crc(out, crc32(pixels))
}

// The line of a glass with that CRC, in eight digits.
fn write_crc(out: &mut Vec<u8>, crc: u32) -> Result<(), AllocError>
    ensures { Appends result out.old.items (codes "glass " ++ (hexOf crc ++ codes "\n")) out.new.items }
{
    append(out, format_args!("glass {crc:08x}\n"))
}

// The pixels in rows of `width`, each row on a line; the last row may be short, and no row is 0 wide.
pub fn write_rows(out: &mut Vec<u8>, pixels: &[u32], width: usize) -> Result<(), AllocError>
    ensures { Appends result out.old.items (row_lines width pixels.now) out.new.items }
{
    if width == 0 {
        return Ok(());
    }
    // The digits of a pixel and what ends them are nine bytes.
    out.reserve(pixels.len().saturating_mul(9))?;
    // By place, which tells what stands after a pixel; with rows from `chunks` the last pixel of each would have to be told apart.
    for (i, pixel) in pixels.iter().enumerate() {
        let end = separator(width, pixels.len(), i + 1);
        out.extend_from_slice(&pixel_word(*pixel, end))?;
    }
    Ok(())
}

// The eight digits of a pixel, the highest first, and what ends them.
// `{pixel:08x}` takes four times as long, and a glass has millions of pixels.
fn pixel_word(pixel: u32, end: u8) -> [u8; 9]
    ensures { result ≡ hexOf pixel ++ end ∷ [] }
{
    let mut word = [end; 9];
    hex::encode_to_slice(pixel.to_be_bytes(), &mut word[..8]).unwrap();
    word
}

// What stands after the first `n` of `count` pixels in rows of `width`.
fn separator(width: usize, count: usize, n: usize) -> u8
    requires { 0 < width }
    ensures { result ≡ separatorOf width count n }
{
    if n % width == 0 || n == count {
        b'\n'
    } else {
        b' '
    }
}
