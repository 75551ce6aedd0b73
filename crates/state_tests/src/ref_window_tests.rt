use ref_window::*;
use std::process::Abort;

// Checks that a window, after the numbers `inserted` were inserted, contains each of `held` and none of `others`.
fn holds_only(rt: &impl Abort, inserted: &[u64], held: &[u64], others: &[u64]) {
    let mut window = RefWindow::new();
    for number in inserted {
        window.insert(*number);
    }
    for number in held {
        assert!(rt; window.holds(*number));
    }
    for number in others {
        assert!(rt; !window.holds(*number));
    }
}

#[test]
fn what_is_at_most_4096_below_the_greatest_is_held(rt: HostRuntime) {
    holds_only(&rt, &[], &[], &[0, u64::MAX]);
    holds_only(&rt, &[0, 7, 4096], &[0, 7, 4096], &[1, 4095, 4097]);
    holds_only(&rt, &[0, 7, 4097], &[7, 4097], &[0, 1, 4096]);
    holds_only(&rt, &[7, 8, 4104], &[8, 4104], &[7, 4103]);
    holds_only(&rt, &[63, 64, 128, 4224], &[128, 4224], &[63, 64, 4223]);
    holds_only(&rt, &[1, 5000, 9096], &[5000, 9096], &[1, 904, 5001]);
    holds_only(&rt, &[5, 5, 4], &[5], &[4]);
    holds_only(
        &rt,
        &[u64::MAX - 1, u64::MAX],
        &[u64::MAX - 1, u64::MAX],
        &[0, u64::MAX - 2],
    );
}

#[test]
fn a_number_is_held_until_one_more_than_4096_above_it_comes(rt: HostRuntime) {
    let mut window = RefWindow::new();
    window.insert(0);
    window.insert(7);
    assert!(rt; window.holds(0) && window.holds(7) && !window.holds(1));
    window.insert(4097);
    assert!(rt; !window.holds(0) && window.holds(7));
    window.reset();
    assert!(rt; !window.holds(7));
    window.insert(2);
    assert!(rt; window.holds(2) && !window.holds(7));
}
