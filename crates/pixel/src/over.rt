// One pixel laid on another, each with four channels of a byte: alpha, red, green and blue.
ghost use Rattle.std.specs.Prelude.{◌≡◌};
ghost use Rattle.model.specs.Pixel.{over, blended, opaque as opaqued};
ghost use Rattle.model.specs.Scene.{laid};

use model::{Element, Format};

// One channel of a premultiplied source with that alpha, over the channel below it.
fn channel_over(alpha: u8, source: u8, below: u8) -> u8
    ensures { result ≡ over alpha source below }
{
    let seen = (u32::from(below) * (255 - u32::from(alpha)) + 127) / 255;
    (u32::from(source) + seen).min(255) as u8
}

// A premultiplied ARGB8888 pixel over the pixel below it.
#[tactic(auto, unfolding(model::specs::Pixel::blended_by))]
pub fn blend(s: u32, d: u32) -> u32
    ensures { result ≡ blended s d }
{
    let [alpha, red, green, blue] = s.to_be_bytes();
    let [below_alpha, below_red, below_green, below_blue] = d.to_be_bytes();
    u32::from_be_bytes([
        channel_over(alpha, alpha, below_alpha),
        channel_over(alpha, red, below_red),
        channel_over(alpha, green, below_green),
        channel_over(alpha, blue, below_blue),
    ])
}

// An XRGB8888 pixel, whose top eight bits mean nothing, made opaque.
#[tactic(auto, unfolding(model::specs::Pixel::with_alpha))]
pub fn opaque(s: u32) -> u32
    ensures { result ≡ opaqued s }
{
    let [_, red, green, blue] = s.to_be_bytes();
    u32::from_be_bytes([255, red, green, blue])
}

// A pixel of an element laid on the pixel below it; in a number that is no format's, it is laid as an opaque one.
pub fn lay(e: &Element, s: u32, d: u32) -> u32
    ensures { result ≡ laid e.now s d }
{
    match Format::try_from(e.format) {
        Ok(Format::Argb8888) => blend(s, d),
        Ok(Format::Xrgb8888) | Err(_) => opaque(s),
    }
}
