// What every presenter means and promises.
ghost use Rattle.std.specs.Prelude.{◌≡◌, ℕ, Bool, true, false, List, length};
ghost use Rattle.model.specs.declared.size.Size.{Size as Sides};
ghost use Rattle.model.specs.Output.{show_answer, on_answer, accepted, sized};
ghost use Rattle.present.specs.Showing.{Act, switched_off, switched_on, showed, Shows, Black};

use model::{Element, Fault, Size};

// An output on which scenes are shown. A dark one shows nothing; a lit one has a glass.
pub trait Presenter {
    // Its width and height, which never change: 0 x 0, or sides of 1 to 4,096.
    ghost extent: { Self → Sides };

    ghost lit: { Self → Bool };

    // The pixel in column x of row y that stands on the output, worked out with a pixel memory.
    ghost glass: { Self → List ℕ → ℕ → ℕ → ℕ };

    // What else is known of a presenter after an act, by the presenter before it: each kind of presenter says here
    // what its own memory then holds.
    ghost left: { Self → Act → Self → Type 0 };

    fn size(&self) -> Size
        ensures value { result ≡ extent self.now }
        ensures sized { sized result ≡ true };

    fn is_lit(&self) -> bool
        ensures { result ≡ lit self.now };

    fn switch_off(&mut self)
        ensures dark { lit self.new ≡ false }
        ensures size { extent self.new ≡ extent self.old }
        ensures left { left self.old switched_off self.new };

    fn switch_on(&mut self) -> Result<(), Fault>
        ensures answer { result ≡ on_answer (extent self.old) }
        ensures refused { accepted result ≡ false → self.new ≡ self.old }
        ensures stays { lit self.old ≡ true → self.new ≡ self.old }
        ensures lights { accepted result ≡ true → lit self.new ≡ true }
        ensures black { accepted result ≡ true → lit self.old ≡ false → Black (glass self.new) (extent self.old) }
        ensures size { extent self.new ≡ extent self.old }
        ensures left { left self.old switched_on self.new };

    // Scene and memory are two parameters: the glass goes on being worked out with a memory that has changed since.
    fn show(&mut self, scene: &[Element], memory: &[u32]) -> Result<(), Fault>
        ensures answer { result ≡ show_answer (lit self.old) scene.now (length memory.now) }
        ensures refused { accepted result ≡ false → self.new ≡ self.old }
        ensures lights { accepted result ≡ true → lit self.new ≡ true }
        ensures shows { accepted result ≡ true → Shows (glass self.new) (extent self.old) scene.now memory.now }
        ensures size { extent self.new ≡ extent self.old }
        ensures left { left self.old (showed scene.now memory.now) self.new };
}
