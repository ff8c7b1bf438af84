// A printed text, appended to an output.
ghost use Rattle.std.specs.Prelude.{◌≡◌, IfSome};
ghost use Rattle.std.specs.Fmt.InlineText.{inline_text};
ghost use Rattle.report.specs.Output.{Appends};

use std::alloc::AllocError;
use std::fmt::{Display, InlineText, Write};

// Room for a line of a report on the stack.
type Line = InlineText<64>;

// What `{}` prints of the text, if a line has room for it.
fn line_of<T: Display>(text: &T) -> Option<Line>
    ensures { IfSome result (λ line. IfSome (T.output text.now) (λ bytes. inline_text line ≡ bytes)) }
{
    let mut line = Line::new();
    write!(line, "{text}").ok()?;
    Some(line)
}

// What `{}` prints of the text. An output with room for a line needs no memory; only a longer text takes some for itself.
pub(crate) fn append<T: Display + Drop>(out: &mut Vec<u8>, text: T) -> Result<(), AllocError>
    ensures { IfSome (T.output text) (λ bytes. Appends result out.old.items bytes out.new.items) }
{
    match line_of(&text) {
        Some(line) => out.extend_from_slice(line.as_str().as_bytes()),
        None => {
            let text = format!(in *out.allocator(); "{text}")?;
            out.extend_from_slice(text.as_bytes())
        }
    }
}
