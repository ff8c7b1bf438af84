// Worked examples of blending.
use super::over::{blend, opaque};

#[test]
fn over_white(rt: HostRuntime) {
    assert_eq!(rt; blend(0x8040_0000, 0xffff_ffff), 0xffbf_7f7f);
    assert_eq!(rt; blend(0x80ff_0000, 0xffff_ffff), 0xffff_7f7f);
}

#[test]
fn clear_and_opaque(rt: HostRuntime) {
    assert_eq!(rt; blend(0, 0x1234_5678), 0x1234_5678);
    assert_eq!(rt; blend(0xff01_0203, 0x1234_5678), 0xff01_0203);
    assert_eq!(rt; opaque(0x0012_3456), 0xff12_3456);
}
