// What an opcode and its arguments ask for, interface by interface.
ghost use Rattle.std.specs.Prelude.{◌≡◌};
ghost use Rattle.model.specs.Asked.{in_numbers, asked};
ghost use Rattle.model.specs.Request.{request_of, optional_id as optional, surface_request as of_surface, subsurface_request as of_subsurface};
ghost use Rattle.model.specs.Word.{words};

use super::word::{arguments, to_int};
use model::{Fault, Interface, Refusal, Request};

// What is asked of an object with that interface, as a request and in numbers. Opcode and body are parameters, here and below,
// and no method of the checked message is: behind its field a proof does not know the range of the bytes, which `numbers` needs.
pub(crate) fn decode_request(
    interface: Interface,
    opcode: u16,
    body: &[u8],
) -> Result<Request, Fault>
    ensures value { result ≡ request_of interface opcode (words body.now) }
    ensures numbers { in_numbers result ≡ asked interface opcode (words body.now) }
{
    request_for(interface, opcode, body)
}

// As a request alone: that it is the same in numbers is shown once, above, and not at each opcode.
fn request_for(interface: Interface, opcode: u16, body: &[u8]) -> Result<Request, Fault>
    ensures { result ≡ request_of interface opcode (words body.now) }
{
    match (interface, opcode) {
        (Interface::Compositor, 0) => {
            let [id] = arguments::<1>(body)?;
            Ok(Request::CreateSurface { id })
        }
        (Interface::Subcompositor, 1) => {
            let [id, surface, parent] = arguments::<3>(body)?;
            Ok(Request::GetSubsurface {
                id,
                surface,
                parent,
            })
        }
        (Interface::Surface, _) => surface_request(opcode, body),
        (Interface::Subsurface, _) => subsurface_request(opcode, body),
        (Interface::Buffer, 0) => {
            let [] = arguments::<0>(body)?;
            Ok(Request::BufferDestroy)
        }
        _ => Err(Refusal::UnlistedOpcode.into()),
    }
}

// An id, or none, which is 0.
fn optional_id(word: u32) -> Option<u32>
    ensures { result ≡ optional word }
{
    (word != 0).then_some(word)
}

fn surface_request(opcode: u16, body: &[u8]) -> Result<Request, Fault>
    ensures { result ≡ of_surface opcode (words body.now) }
{
    match opcode {
        0 => {
            let [] = arguments::<0>(body)?;
            Ok(Request::SurfaceDestroy)
        }
        1 => {
            let [buffer, x, y] = arguments::<3>(body)?;
            Ok(Request::Attach {
                buffer: optional_id(buffer),
                x: to_int(x),
                y: to_int(y),
            })
        }
        2 => {
            let [x, y, width, height] = arguments::<4>(body)?;
            Ok(Request::Damage {
                x: to_int(x),
                y: to_int(y),
                width: to_int(width),
                height: to_int(height),
            })
        }
        3 => {
            let [callback] = arguments::<1>(body)?;
            Ok(Request::Frame { callback })
        }
        6 => {
            let [] = arguments::<0>(body)?;
            Ok(Request::Commit)
        }
        _ => Err(Refusal::UnlistedOpcode.into()),
    }
}

fn subsurface_request(opcode: u16, body: &[u8]) -> Result<Request, Fault>
    ensures { result ≡ of_subsurface opcode (words body.now) }
{
    match opcode {
        0 => {
            let [] = arguments::<0>(body)?;
            Ok(Request::SubsurfaceDestroy)
        }
        1 => {
            let [x, y] = arguments::<2>(body)?;
            Ok(Request::SetPosition {
                x: to_int(x),
                y: to_int(y),
            })
        }
        2 => {
            let [sibling] = arguments::<1>(body)?;
            Ok(Request::PlaceAbove { sibling })
        }
        3 => {
            let [sibling] = arguments::<1>(body)?;
            Ok(Request::PlaceBelow { sibling })
        }
        4 => {
            let [] = arguments::<0>(body)?;
            Ok(Request::SetSync)
        }
        5 => {
            let [] = arguments::<0>(body)?;
            Ok(Request::SetDesync)
        }
        _ => Err(Refusal::UnlistedOpcode.into()),
    }
}
