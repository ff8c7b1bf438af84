// The first frame of an output.
ghost use Rattle.std.specs.Prelude.{◌≡◌, true, false, length};
ghost use Rattle.model.specs.Output.{accepted, on_answer, show_answer, then};
ghost use Rattle.present.specs.Showing.{Shows, LitAndShown};

use super::presenter::Presenter;
use model::{Element, Fault};

// Lights an output and shows one scene. The glass is then the picture of the scene, and stays it when the pixel memory
// changes outside the spans of the scene's elements.
pub fn first_frame<P: Presenter>(p: &mut P, scene: &[Element], memory: &[u32]) -> Result<(), Fault>
    ensures answer { result ≡ then (on_answer (P.extent p.old)) (show_answer true scene.now (length memory.now)) }
    ensures lights { accepted result ≡ true → P.lit p.new ≡ true }
    ensures shows { accepted result ≡ true → Shows (P.glass p.new) (P.extent p.old) scene.now memory.now }
    ensures size { P.extent p.new ≡ P.extent p.old }
    ensures left { LitAndShown P.left (accepted (on_answer (P.extent p.old))) p.old scene.now memory.now p.new }
{
    p.switch_on()?;
    p.show(scene, memory)
}
