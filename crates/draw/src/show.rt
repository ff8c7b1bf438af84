// One scene on a presenter, read back from its glass.
ghost use Rattle.std.specs.Prelude.{◌≡◌, true, length};
ghost use Rattle.model.specs.Output.{accepted, on_answer, show_answer, then};
ghost use Rattle.model.specs.Scene.{picture};
ghost use Rattle.raster.specs.Raster.{IsFrame, raster};

use model::{Element, Fault};
use present::{Readback, first_frame, read_glass};

// Lights an output, shows a scene and copies the glass into `pixels`, which are to be as many as the output has.
pub(crate) fn show_on<P: Readback>(
    p: &mut P,
    scene: &[Element],
    memory: &[u32],
    pixels: &mut [u32],
) -> Result<(), Fault>
    ensures answer { result ≡ then (on_answer (P.Presenter.extent p.old)) (show_answer true scene.now (length memory.now)) }
    ensures pixels { accepted result ≡ true → IsFrame (P.Presenter.extent p.old) pixels.old → pixels.new ≡ raster (P.Presenter.extent p.old) (picture scene.now memory.now) }
{
    first_frame(p, scene, memory)?;
    read_glass(p, memory, pixels);
    Ok(())
}
