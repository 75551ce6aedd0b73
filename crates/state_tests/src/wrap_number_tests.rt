use wrap_number::*;

#[test]
fn half_a_turn_is_behind(rt: HostRuntime) {
    assert_eq!(rt; place(32768, 0), 0);
    assert_eq!(rt; place(32767, 0), 0);
    assert_eq!(rt; place(32769, 0), 65536);
    assert_eq!(rt; place(65535, 0), 65536);
    assert_eq!(rt; place(0, 65535), -1);
    assert_eq!(rt; place(0, 32768), -32768);
    assert_eq!(rt; place(0, 32767), 32767);
    assert_eq!(rt; place(-65537, 65535), -65537);
}

#[test]
fn above_is_never_the_number_itself(rt: HostRuntime) {
    assert_eq!(rt; above(0, 0), 65536);
    assert_eq!(rt; above(65535, 0), 65536);
    assert_eq!(rt; above(2, 3), 3);
    assert_eq!(rt; above(3, 2), 65538);
}

#[test]
fn numbers_go_on_over_the_wrap(rt: HostRuntime) {
    let next = place(65_535, 0);
    let late = place(next, 65_535);
    let key = above(65_536, 0);
    assert_eq!(rt; next, 65_536);
    assert_eq!(rt; late, 65_535);
    assert_eq!(rt; key, 131_072);
}
