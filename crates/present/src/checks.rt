// The checks that every presenter makes before it shows a scene.
ghost use Rattle.std.specs.Prelude.{◌≡◌, length};
ghost use Rattle.model.specs.Output.{on_answer, show_answer};

use model::{Element, Fault, Refusal, Size};
use raster::are_sound;

// Most elements in a scene.
const MOST_ELEMENTS: usize = 32;

// Whether an output of this size can be switched on: not if it is 0 x 0.
pub fn check_switch_on(size: Size) -> Result<(), Fault>
    ensures { result ≡ on_answer size }
{
    if size == Size::default() {
        return Err(Refusal::NoSize.into());
    }
    Ok(())
}

// Whether a presenter that is lit or not can show a scene with a pixel memory of `pixels` pixels.
pub fn check_show(lit: bool, scene: &[Element], pixels: usize) -> Result<(), Fault>
    ensures { result ≡ show_answer lit scene.now pixels }
{
    if !lit {
        return Err(Refusal::Dark.into());
    }
    if scene.len() > MOST_ELEMENTS || !are_sound(scene, pixels) {
        return Err(Refusal::BadScene.into());
    }
    Ok(())
}
