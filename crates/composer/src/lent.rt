// A scene drawn into a frame memory, from the memory's lender's side.
ghost use Rattle.std.specs.Prelude.{◌≡◌, length};
ghost use Rattle.composer.specs.Composer.{compose_answer, composed};

use super::composer::Composer;
use model::{Element, Fault, Size};
use present::first_frame;

// Draws a scene into a frame memory by a composer. The lender finds the picture in its memory; black, where the scene was
// refused; or all as it was, where the memory does not fit the size.
pub fn compose(
    frame: &mut [u32],
    size: Size,
    scene: &[Element],
    memory: &[u32],
) -> Result<(), Fault>
    ensures answer { result ≡ compose_answer size (length frame.old) scene.now (length memory.now) }
    ensures frame { frame.new ≡ composed size frame.old scene.now memory.now }
{
    let mut composer = Composer::new(frame, size);
    first_frame(&mut composer, scene, memory)
}
