ghost use Rattle.std.specs.Prelude.{◌≤◌};

use chain_state::*;
use ref_window::RefWindow;
use sfu_base::{Dti, FrameMeaning};
use std::process::Abort;

// A frame with one target, which the only chain protects.
const FRAME: FrameMeaning = FrameMeaning {
    number: 1,
    start: 1,
    epoch: 1,
    spatial: 0,
    temporal: 0,
    key: false,
    mask: 1,
    target_count: 1,
    dtis: [Dti::Required; 32],
    pairs: [None; 32],
    chain_count: 1,
    guards: [0; 32],
    links: [0; 32],
    ref_count: 0,
    refs: [0; 16],
};

// Checks the chain's state at frame 6. Of the earlier frames, 1, 4 and 5 were forwarded.
fn check_row(rt: &impl Abort, chains: u8, link: u8, opened: u64, state: LinkState)
    requires { chains ≤ 1 }
{
    let mut passed = RefWindow::new();
    passed.insert(1);
    passed.insert(4);
    passed.insert(5);
    let mut frame = FRAME;
    frame.number = 6;
    frame.chain_count = chains;
    frame.links[0] = link;
    assert_eq!(rt; link_state(&frame, 0, opened, &passed), state);
}

#[test]
fn a_chain_breaks_where_its_link_names_a_frame_since_the_opening_one_that_was_not_passed(
    rt: HostRuntime,
) {
    check_row(&rt, 1, 3, 1, LinkState::Broken { number: 3 });
    check_row(&rt, 1, 3, 3, LinkState::Broken { number: 3 });
    check_row(&rt, 1, 3, 4, LinkState::Intact);
    check_row(&rt, 1, 2, 1, LinkState::Intact);
    check_row(&rt, 1, 0, 1, LinkState::Intact);
    check_row(&rt, 0, 3, 1, LinkState::Intact);
    check_row(&rt, 1, 7, 0, LinkState::Intact);
}

#[test]
fn a_chain_is_intact_once_the_frame_before_was_passed(rt: HostRuntime) {
    let mut passed = RefWindow::new();
    passed.insert(1);
    let mut frame = FRAME;
    frame.number = 3;
    frame.links[0] = 1;
    assert_eq!(rt;
        link_state(&frame, 0, 1, &passed),
        LinkState::Broken { number: 2 }
    );
    passed.insert(2);
    assert_eq!(rt; link_state(&frame, 0, 1, &passed), LinkState::Intact);
}
