// What the frame memory holds, and what is read back.
use composer::{Composer, compose};
use model::{Element, Size};
use present::{Presenter, Readback, first_frame, read_glass};

const RED: Element = Element {
    x: 0,
    y: 0,
    first: 0,
    width: 1,
    height: 1,
    stride: 1,
    format: 0,
};

// A refused showing leaves the picture, and a lit output that is switched on keeps it.
#[test]
fn stays(rt: HostRuntime) {
    let memory = [0xffff_0000];
    let mut frame = [7; 2];
    let size = Size {
        width: 2,
        height: 1,
    };
    let mut composer = Composer::new(&mut frame, size);
    assert!(rt; first_frame(&mut composer, &[RED], &memory).is_ok());
    assert!(rt;
        composer
            .show(&[Element { format: 2, ..RED }], &memory)
            .is_err()
    );
    assert!(rt; composer.switch_on().is_ok());
    assert_eq!(rt; composer.pixel(0, 0, &memory), Some(0xffff_0000));
    assert_eq!(rt; composer.pixel(1, 0, &[]), Some(0xff00_0000));
    assert_eq!(rt; composer.pixel(2, 0, &memory), None);
    composer.switch_off();
    assert_eq!(rt; composer.pixel(0, 0, &memory), None);
    assert!(rt; composer.switch_on().is_ok());
    assert_eq!(rt; composer.pixel(0, 0, &memory), Some(0xff00_0000));
}

// A frame memory of another length is not written to.
#[test]
fn untouched(rt: HostRuntime) {
    let mut frame = [7; 3];
    let size = Size {
        width: 2,
        height: 2,
    };
    assert!(rt; compose(&mut frame, size, &[RED], &[0]).is_err());
    assert_eq!(rt; frame, [7; 3]);
}

// A refused scene on a dark output leaves it lit and black.
#[test]
fn refused_after_lighting(rt: HostRuntime) {
    let mut frame = [7; 1];
    let size = Size {
        width: 1,
        height: 1,
    };
    assert!(rt; compose(&mut frame, size, &[RED], &[]).is_err());
    assert_eq!(rt; frame, [0xff00_0000]);
}

#[test]
fn reads_the_whole_glass(rt: HostRuntime) {
    let memory = [0xff00_ff00];
    let mut frame = [0; 4];
    let size = Size {
        width: 2,
        height: 2,
    };
    let mut composer = Composer::new(&mut frame, size);
    let mut copy = [7; 4];
    assert!(rt; !read_glass(&composer, &memory, &mut copy));
    let green = Element { x: 1, y: 1, ..RED };
    assert!(rt; first_frame(&mut composer, &[green], &memory).is_ok());
    assert!(rt; !read_glass(&composer, &memory, &mut copy[0..3]));
    assert!(rt; copy[0] == 7);
    assert!(rt; read_glass(&composer, &memory, &mut copy));
    assert!(rt; copy[0] == 0xff00_0000 && copy[3] == 0xff00_ff00);
}
