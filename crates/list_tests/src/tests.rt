// Examples of lists and searches.
use super::records::{Callback, Name, Surface, callback_at, surface_at};
use super::texts::{Global, interface_at};
use list::{Appender, Indices};

#[test]
fn by_client_and_id(rt: HostRuntime) {
    let one = Surface {
        live: true,
        client: 0,
        id: 7,
    };
    let dead = Surface {
        live: false,
        client: 1,
        id: 7,
    };
    let two = Surface {
        live: true,
        client: 1,
        id: 7,
    };
    let surfaces = [one, dead, two, two];
    assert!(rt; surface_at(&surfaces, Name { client: 1, id: 7 }) == Some(2));
    assert!(rt; surface_at(&surfaces, Name { client: 1, id: 8 }) == None);
    let ended = Callback {
        client: 0,
        id: None,
    };
    let waiting = Callback {
        client: 0,
        id: Some(9),
    };
    assert!(rt; callback_at(&[ended, waiting], Name { client: 0, id: 9 }) == Some(1));
    assert!(rt; callback_at(&[], Name { client: 0, id: 9 }) == None);
}

#[test]
fn by_text(rt: HostRuntime) {
    let globals = [
        Global {
            name: b"wl_compositor",
            version: 4,
        },
        Global {
            name: b"wl_subcompositor",
            version: 1,
        },
    ];
    assert!(rt; interface_at(&globals, b"wl_subcompositor") == Some(1));
    assert!(rt; interface_at(&globals, b"wl_sub") == None);
}

#[test]
fn full_lists_stay(rt: HostRuntime) {
    let mut places = [0u32; 2];
    let mut list = Appender::new(&mut places);
    list.push(5);
    list.push(6);
    list.push(7);
    assert!(rt; list.count() == 2);
    assert_eq!(rt; places, [5, 6]);
    let mut indices = Indices::new();
    for i in 0..40u8 {
        indices.push(i);
    }
    assert!(rt; indices.len() == 32);
    assert!(rt; indices.as_slice().first() == Some(&0) && indices.as_slice().last() == Some(&31));
}
