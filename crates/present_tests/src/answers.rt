// What presenters answer, case by case.
use composer::{Composer, compose};
use model::{Element, Fault, Size};
use present::Presenter;

const GOOD: Element = Element {
    x: 0,
    y: 0,
    first: 0,
    width: 2,
    height: 2,
    stride: 2,
    format: 0,
};

const PIXEL: Size = Size {
    width: 1,
    height: 1,
};

// What an output answers that refuses.
fn refused(number: u32) -> Result<(), Fault> {
    Err(Fault {
        number,
        station: 9,
        word: 0,
    })
}

// What showing one element with a pixel memory of four pixels is answered.
fn showing(element: Element) -> Result<(), Fault> {
    compose(&mut [0; 1], PIXEL, &[element], &[0; 4])
}

#[test]
fn dark(rt: HostRuntime) {
    let mut frame = [7; 4];
    let size = Size {
        width: 2,
        height: 2,
    };
    let mut composer = Composer::new(&mut frame, size);
    assert_eq!(rt; composer.show(&[], &[]), refused(17));
    assert_eq!(rt; composer.switch_on(), Ok(()));
    assert_eq!(rt; composer.show(&[], &[]), Ok(()));
    composer.switch_off();
    assert_eq!(rt; composer.show(&[], &[]), refused(17));
}

#[test]
fn no_size(rt: HostRuntime) {
    let sides = [(0, 4), (4, 0), (2, 3), (4097, 1), (1, 4097), (0, 0)];
    let none = Size {
        width: 0,
        height: 0,
    };
    for (width, height) in sides {
        let mut frame = [7; 4];
        let mut composer = Composer::new(&mut frame, Size { width, height });
        assert_eq!(rt; composer.size(), none);
        assert_eq!(rt; composer.switch_on(), refused(19));
        assert!(rt; !composer.is_lit());
        assert_eq!(rt; composer.show(&[], &[]), refused(17));
    }
}

#[test]
fn bad_elements(rt: HostRuntime) {
    assert_eq!(rt; showing(GOOD), Ok(()));
    let bad = [
        Element { width: 0, ..GOOD },
        Element {
            width: 4097,
            stride: 4097,
            height: 1,
            ..GOOD
        },
        Element { height: 0, ..GOOD },
        Element {
            height: 4097,
            width: 1,
            stride: 1,
            ..GOOD
        },
        Element { stride: 1, ..GOOD },
        Element {
            stride: 4097,
            ..GOOD
        },
        Element { format: 2, ..GOOD },
        Element { first: 1, ..GOOD },
        Element { stride: 3, ..GOOD },
        Element {
            first: u32::MAX,
            ..GOOD
        },
    ];
    for element in bad {
        assert_eq!(rt; showing(element), refused(18));
    }
}

#[test]
fn many_elements(rt: HostRuntime) {
    let mut frame = [0; 1];
    assert_eq!(rt; compose(&mut frame, PIXEL, &[GOOD; 32], &[0; 4]), Ok(()));
    assert_eq!(rt;
        compose(&mut frame, PIXEL, &[GOOD; 33], &[0; 4]),
        refused(18)
    );
}
