// Pixels as words write them.
ghost use Rattle.std.specs.Prelude.{◌≡◌};
ghost use Rattle.text.specs.Pixel.{pixel, times, pixels_of};

use super::number::read_number;

// The same pixel, some number of times.
#[derive(Clone, Copy, PartialEq, Eq, Debug)]
pub struct PixelRun {
    pub count: u32,
    pub pixel: u32,
}

// Eight hex digits.
#[tactic(auto, unfolding(crate::specs::Pixel::pixel))]
fn read_pixel(word: &[u8]) -> Option<u32>
    ensures { result ≡ pixel word.now }
{
    if word.len() != 8 {
        return None;
    }
    read_number(word, 16, u32::MAX)
}

// What stands in front of a pixel: nothing, or how often it comes and a star.
#[tactic(auto, using(crate::proofs::Stars::times_some), unfolding(crate::specs::Pixel::times))]
fn read_times(front: &[u8]) -> Option<u32>
    ensures { result ≡ times front.now }
{
    match front {
        [] => Some(1),
        [digits @ .., b'*'] => read_number(digits, 10, u32::MAX),
        _ => None,
    }
}

// The pixels that a word writes.
pub fn read_pixels(word: &[u8]) -> Option<PixelRun>
    ensures { result ≡ pixels_of word.now }
{
    let (front, digits) = word.split_at(word.len().saturating_sub(8));
    Some(PixelRun {
        count: read_times(front)?,
        pixel: read_pixel(digits)?,
    })
}
