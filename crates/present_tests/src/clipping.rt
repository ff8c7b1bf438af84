// One element of 2 x 2 pixels on an output of 3 x 3, over every side and corner and far outside.
use composer::compose;
use model::{Element, Size};
use std::process::Abort;

const K: u32 = 0xff00_0000;

const A: u32 = 0xff00_0001;

const B: u32 = 0xff00_0002;

const C: u32 = 0xff00_0003;

const D: u32 = 0xff00_0004;

// Where the element is placed, and the picture by rows.
#[derive(Drop)]
struct Case {
    x: i32,
    y: i32,
    picture: [u32; 9],
}

fn matches(case: &Case) -> bool {
    let element = Element {
        x: case.x,
        y: case.y,
        first: 1,
        width: 2,
        height: 2,
        stride: 3,
        format: 1,
    };
    let memory = [9, 1, 2, 9, 3, 4, 9];
    let mut frame = [7; 9];
    let size = Size {
        width: 3,
        height: 3,
    };
    compose(&mut frame, size, &[element], &memory).is_ok() && frame == case.picture
}

fn all_match(rt: &impl Abort, cases: &[Case]) {
    for case in cases {
        assert!(rt; matches(case));
    }
}

#[test]
fn inside_and_over_sides(rt: HostRuntime) {
    all_match(
        &rt,
        &[
            Case {
                x: 0,
                y: 0,
                picture: [A, B, K, C, D, K, K, K, K],
            },
            Case {
                x: 1,
                y: 1,
                picture: [K, K, K, K, A, B, K, C, D],
            },
            Case {
                x: 1,
                y: -1,
                picture: [K, C, D, K, K, K, K, K, K],
            },
            Case {
                x: 1,
                y: 2,
                picture: [K, K, K, K, K, K, K, A, B],
            },
            Case {
                x: -1,
                y: 1,
                picture: [K, K, K, B, K, K, D, K, K],
            },
            Case {
                x: 2,
                y: 1,
                picture: [K, K, K, K, K, A, K, K, C],
            },
        ],
    );
}

#[test]
fn over_corners(rt: HostRuntime) {
    all_match(
        &rt,
        &[
            Case {
                x: -1,
                y: -1,
                picture: [D, K, K, K, K, K, K, K, K],
            },
            Case {
                x: 2,
                y: -1,
                picture: [K, K, C, K, K, K, K, K, K],
            },
            Case {
                x: -1,
                y: 2,
                picture: [K, K, K, K, K, K, B, K, K],
            },
            Case {
                x: 2,
                y: 2,
                picture: [K, K, K, K, K, K, K, K, A],
            },
        ],
    );
}

#[test]
fn outside(rt: HostRuntime) {
    let black = [K; 9];
    all_match(
        &rt,
        &[
            Case {
                x: 3,
                y: 0,
                picture: black,
            },
            Case {
                x: 0,
                y: 3,
                picture: black,
            },
            Case {
                x: -2,
                y: 0,
                picture: black,
            },
            Case {
                x: 0,
                y: -2,
                picture: black,
            },
            Case {
                x: i32::MAX,
                y: i32::MAX,
                picture: black,
            },
            Case {
                x: i32::MIN,
                y: i32::MIN,
                picture: black,
            },
            Case {
                x: 16384,
                y: -16384,
                picture: black,
            },
        ],
    );
}
