// Messages that are refused.
use crate::answer::{BAD_ARGUMENTS, BAD_HEADER, UNLISTED_OPCODE, refusal};
use model::Interface;
use std::test::Fail;

const ATTACH: [u8; 20] = [7, 0, 0, 0, 1, 0, 20, 0, 10, 0, 0, 0, 0, 0, 0, 0, 0, 0, 0, 0];

#[test]
fn cut_at_each_length(rt: HostRuntime) {
    assert_eq!(rt; refusal(&ATTACH, Interface::Surface), None);
    for length in 0..20usize {
        assert_eq!(rt;
            refusal(&ATTACH[..length], Interface::Surface),
            Some(BAD_HEADER)
        );
    }
}

#[test]
fn another_size(rt: HostRuntime) {
    for size in [19, 21, 16, 24] {
        let mut bytes = ATTACH;
        bytes[6] = size;
        assert_eq!(rt; refusal(&bytes, Interface::Surface), Some(BAD_HEADER));
    }
}

// The size has 16 bits, and says 0 of such a message.
#[test]
fn of_65536_bytes(rt: HostRuntime) -> Result<(), Fail> {
    let bytes = vec![in rt.alloc(); 0; 65536]?;
    assert_eq!(rt;
        refusal(bytes.as_slice(), Interface::Surface),
        Some(BAD_HEADER)
    );
    Ok(())
}

#[test]
fn unlisted(rt: HostRuntime) {
    for opcode in 0..=255u8 {
        let bytes = [1, 0, 0, 0, opcode, 0, 8, 0];
        assert_eq!(rt; refusal(&bytes, Interface::Display), Some(UNLISTED_OPCODE));
        assert_eq!(rt; refusal(&bytes, Interface::Callback), Some(UNLISTED_OPCODE));
    }
    assert_eq!(rt;
        refusal(&[7, 0, 0, 0, 5, 0, 8, 0], Interface::Surface),
        Some(UNLISTED_OPCODE)
    );
    assert_eq!(rt;
        refusal(&[7, 0, 0, 0, 6, 1, 8, 0], Interface::Surface),
        Some(UNLISTED_OPCODE)
    );
}

// Each opcode with no to five words of arguments: all but the number that it takes are refused.
#[test]
fn arguments_that_do_not_fit(rt: HostRuntime) {
    let takes = [
        (Interface::Compositor, 0, 1),
        (Interface::Subcompositor, 1, 3),
        (Interface::Surface, 0, 0),
        (Interface::Surface, 1, 3),
        (Interface::Surface, 2, 4),
        (Interface::Surface, 3, 1),
        (Interface::Surface, 6, 0),
        (Interface::Subsurface, 0, 0),
        (Interface::Subsurface, 1, 2),
        (Interface::Subsurface, 2, 1),
        (Interface::Subsurface, 3, 1),
        (Interface::Subsurface, 4, 0),
        (Interface::Subsurface, 5, 0),
        (Interface::Buffer, 0, 0),
    ];
    for (interface, opcode, words) in takes {
        for count in 0..6u8 {
            let size = 8 + 4 * count;
            let mut bytes = [0; 28];
            bytes[4] = opcode;
            bytes[6] = size;
            let answer = refusal(&bytes[..usize::from(size)], interface);
            assert_eq!(rt; answer, (count != words).then_some(BAD_ARGUMENTS));
        }
    }
}
