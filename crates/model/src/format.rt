// The formats that the pixels of a buffer may have.
ghost use Rattle.model.specs.Format.{Decodes};

#[derive(Clone, Copy, PartialEq, Eq, Debug)]
pub enum Format {
    // Each pixel has an alpha of its own, by which its colors are multiplied.
    Argb8888,
    // The top eight bits of a pixel mean nothing.
    Xrgb8888,
}

// A number that is no format's.
#[derive(Clone, Copy, PartialEq, Eq, Debug)]
pub struct UnknownFormat;

impl TryFrom<u32> for Format {
    type Error = UnknownFormat;

    ghost try_from_gives = { Decodes };

    fn try_from(number: u32) -> Result<Format, UnknownFormat> {
        match number {
            0 => Ok(Format::Argb8888),
            1 => Ok(Format::Xrgb8888),
            _ => Err(UnknownFormat),
        }
    }
}
