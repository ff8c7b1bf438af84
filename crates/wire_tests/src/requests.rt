// What whole messages ask for.
use model::{Fault, Interface, Request};
use std::process::Abort;
use std::test::Fail;
use wire::Message;

// A message to an object, with its interface, and what it asks for.
struct Case<'a> {
    bytes: &'a [u8],
    object: u32,
    interface: Interface,
    request: Request,
}

fn whole_refused(_: Fault) -> Fail {
    Fail::new("a whole message was refused")
}

fn all_ask(rt: &impl Abort, cases: &[Case<'_>]) -> Result<(), Fail> {
    for case in cases {
        let message = Message::read(case.bytes).check().map_err(whole_refused)?;
        assert_eq!(rt; message.object(), case.object);
        assert_eq!(rt; message.decode(case.interface), Ok(case.request));
    }
    Ok(())
}

#[test]
fn with_ids(rt: HostRuntime) -> Result<(), Fail> {
    all_ask(
        &rt,
        &[
            Case {
                bytes: b"\x03\0\0\0\0\0\x0c\0\x06\0\0\0",
                object: 3,
                interface: Interface::Compositor,
                request: Request::CreateSurface { id: 6 },
            },
            Case {
                bytes: b"\x04\0\0\0\x01\0\x14\0\x08\0\0\0\x07\0\0\0\x06\0\0\0",
                object: 4,
                interface: Interface::Subcompositor,
                request: Request::GetSubsurface {
                    id: 8,
                    surface: 7,
                    parent: 6,
                },
            },
            Case {
                bytes: b"\x07\0\0\0\x06\0\x08\0",
                object: 7,
                interface: Interface::Surface,
                request: Request::Commit,
            },
        ],
    )
}

#[test]
fn with_signed_numbers(rt: HostRuntime) -> Result<(), Fail> {
    all_ask(
        &rt,
        &[
            Case {
                bytes: b"\x07\0\0\0\x01\0\x14\0\x0a\0\0\0\0\0\0\0\0\0\0\0",
                object: 7,
                interface: Interface::Surface,
                request: Request::Attach {
                    buffer: Some(10),
                    x: 0,
                    y: 0,
                },
            },
            Case {
                bytes: b"\x07\0\0\0\x01\0\x14\0\0\0\0\0\0\0\0\0\0\0\0\0",
                object: 7,
                interface: Interface::Surface,
                request: Request::Attach {
                    buffer: None,
                    x: 0,
                    y: 0,
                },
            },
            Case {
                bytes: b"\x08\0\0\0\x01\0\x10\0\x00\xc0\xff\xff\x00\x40\0\0",
                object: 8,
                interface: Interface::Subsurface,
                request: Request::SetPosition {
                    x: -16384,
                    y: 16384,
                },
            },
            Case {
                bytes: b"\x07\0\0\0\x02\0\x18\0\xff\xff\xff\xff\0\0\0\x80\xff\xff\xff\x7f\x01\0\0\0",
                object: 7,
                interface: Interface::Surface,
                request: Request::Damage {
                    x: -1,
                    y: i32::MIN,
                    width: i32::MAX,
                    height: 1,
                },
            },
        ],
    )
}

// What can be listed of a message without its interface.
#[test]
fn listed(rt: HostRuntime) -> Result<(), Fail> {
    let message = Message::read(b"\x08\0\0\0\x01\0\x10\0\x00\xc0\xff\xff\x00\x40\0\0")
        .check()
        .map_err(whole_refused)?;
    assert_eq!(rt; message.opcode(), 1);
    assert_eq!(rt; message.size(), 16);
    assert_eq!(rt; message.argument_word(0), Some(0xffff_c000));
    assert_eq!(rt; message.argument_word(1), Some(0x4000));
    assert_eq!(rt; message.argument_word(2), None);
    Ok(())
}
