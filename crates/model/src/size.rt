// The size of an output, in pixels; an output that cannot be lit has 0 x 0.
ghost use Rattle.std.specs.Prelude.{◌≡◌, ◌*◌};

#[derive(Clone, Copy, PartialEq, Eq, Debug, Default)]
pub struct Size {
    pub width: u32,
    pub height: u32,
}

impl Size {
    // How many pixels an output of this size has.
    pub fn pixels(self) -> usize
        ensures { result ≡ self.width * self.height }
    {
        self.width as usize * self.height as usize
    }
}
