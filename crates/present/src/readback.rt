// Reading back what stands on the glass.
ghost use Rattle.std.specs.Prelude.{◌≡◌, length, if◌then◌else◌};
ghost use Rattle.present.specs.Readback.{glass_pixel, readable};
ghost use Rattle.raster.specs.Raster.{raster};

use super::presenter::Presenter;

// A presenter whose glass can be read pixel by pixel.
pub trait Readback: Presenter {
    // The pixel in column `x` of row `y`, worked out with a pixel memory; none while dark, and none outside the size.
    fn pixel(&self, x: u32, y: u32, memory: &[u32]) -> Option<u32>
        ensures { result ≡ glass_pixel (Self.Presenter.lit self.now) (Self.Presenter.extent self.now) (Self.Presenter.glass self.now memory.now) x y };
}

// Copies the whole glass into `pixels`, row by row; a dark presenter, or another number of pixels, leaves them as they are.
// It answers whether it did, and makes no list of pixels: presenters are used where there is no heap.
pub fn read_glass<P: Readback>(p: &P, memory: &[u32], pixels: &mut [u32]) -> bool
    ensures reads { result ≡ readable (P.Presenter.lit p.now) (P.Presenter.extent p.now) (length pixels.old) }
    ensures pixels { pixels.new ≡ (if result then raster (P.Presenter.extent p.now) (P.Presenter.glass p.now memory.now) else pixels.old) }
{
    let size = p.size();
    let width = size.width as usize;
    if !p.is_lit() || pixels.len() != size.pixels() {
        return false;
    }
    // By place, not by the rows of `chunks_exact_mut`: of what was written through those, nothing can be proved.
    for (place, pixel) in pixels.iter_mut().enumerate() {
        let x = (place % width) as u32;
        let y = (place / width) as u32;
        // A lit output has every pixel of its size.
        *pixel = p.pixel(x, y, memory).unwrap();
    }
    true
}
