// The composer: a presenter that draws each scene into a frame memory, which is its glass.
ghost use Rattle.std.specs.Prelude.{◌≡◌, false};
ghost use Rattle.composer.specs.Composer.{ComposerLeft, composer_glass, composer_size};

use model::{Element, Fault, Size};
use present::{Presenter, Readback, check_show, check_switch_on};
use raster::{clear_frame, draw_frame, frame_pixel, frame_size};

// The frame and its size are fields of their own: of a struct that holds a struct that holds a loan, the lent memory would not be
// known afterwards.
#[derive(Drop)]
pub struct Composer<'a> {
    frame: &'a mut [u32],
    size: Size,
    lit: bool,
}

impl<'a> Composer<'a> {
    // A dark composer over a lent frame memory; sides outside 1 to 4,096, or a memory of another length, make its size 0 x 0.
    pub fn new(frame: &'a mut [u32], size: Size) -> Composer<'a>
        ensures dark { result.lit ≡ false }
        ensures size { result.size ≡ size }
        ensures frame { result.frame.now ≡ frame.old }
        ensures lender { result.frame.ghost_name ≡ frame.entry.ghost_name }
    {
        Composer {
            frame,
            size,
            lit: false,
        }
    }
}

impl<'a> Presenter for Composer<'a> {
    ghost extent = { composer_size };

    ghost lit = { λ s. s.lit };

    ghost glass = { composer_glass };

    ghost left = { ComposerLeft };

    fn size(&self) -> Size {
        frame_size(self.size, self.frame.len())
    }

    fn is_lit(&self) -> bool {
        self.lit // never while the size is 0 x 0
    }

    fn switch_off(&mut self) {
        self.lit = false;
    }

    #[tactic(auto, using(raster::proofs::Frames::at_blackened))]
    fn switch_on(&mut self) -> Result<(), Fault> {
        check_switch_on(self.size())?;
        if !self.lit {
            clear_frame(self.frame);
            self.lit = true;
        }
        Ok(())
    }

    #[tactic(auto, using(raster::proofs::Frames::at_painted))]
    fn show(&mut self, scene: &[Element], memory: &[u32]) -> Result<(), Fault> {
        check_show(self.lit, scene, memory.len())?;
        draw_frame(self.frame, self.size, scene, memory);
        Ok(())
    }
}

impl<'a> Readback for Composer<'a> {
    fn pixel(&self, x: u32, y: u32, _memory: &[u32]) -> Option<u32> {
        // Copied first: what a closure reads in a struct that holds a `&mut` could not be proved.
        let frame: &[u32] = self.frame;
        let size = self.size;
        self.lit.then(|| frame_pixel(frame, size, x, y)).flatten()
    }
}
