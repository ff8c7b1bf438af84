// A message is carried out once, and keeps its bytes until then; then they may be read again or filled anew.
use crate::answer::carry_out;
use model::{Interface, Request};
use wire::Message;

#[test]
fn again(rt: HostRuntime) {
    let mut bytes = [7, 0, 0, 0, 6, 0, 8, 0];
    let first = Message::read(&bytes);
    assert_eq!(rt; carry_out(first, Interface::Surface), Ok(Request::Commit));
    let same = Message::read(&bytes);
    assert_eq!(rt; carry_out(same, Interface::Surface), Ok(Request::Commit));
    bytes[4] = 0;
    let other = Message::read(&bytes);
    assert_eq!(rt;
        carry_out(other, Interface::Surface),
        Ok(Request::SurfaceDestroy)
    );
}
