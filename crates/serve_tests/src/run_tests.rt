//! Tests of concurrent sessions, over links in memory and over calm links. A calm link receives nothing and discards what is sent.

use crate::session_tests::{NACK, SSRC, has_sent, link, room_after, rtp};
use crate::shared_room_tests::publish;
use rtx_stream::Rtx;
use sfu_base::{CalmLink, Clock, StepClock};
use sfu_serve::{Job, Role, SessionEnd, run_sessions};
use std::test::Fail;

// A controller and a publisher at the same time. In every order of turns, the controller's call is refused. The
// publisher's second packet leaves a gap, so the publisher is asked for the packet between. Each link fails in turn.
#[test]
fn a_controller_and_a_publisher_have_sessions_at_once(rt: HostRuntime) -> Result<(), Fail> {
    let (all, lost) = (SessionEnd::AllTurns, SessionEnd::LinkFault { turn: 1 });
    let cases: [(&[u64], &[u64], [SessionEnd; 2]); 3] = [
        (&[], &[], [all, all]),
        (&[1], &[], [lost, all]),
        (&[], &[0], [all, lost]),
    ];
    for (receive_fails, send_fails, wanted) in cases {
        let (turns, mut seat) = room_after(&rt, rt.alloc(), &[publish()])?;
        let controller = Job {
            role: Role::Control,
            link: link(rt.alloc(), &[b"leave 1"], receive_fails, &[])?,
        };
        let publisher = Job {
            role: Role::Publisher {
                track: 1,
                ssrc: SSRC,
            },
            link: link(rt.alloc(), &[&rtp(1000), &rtp(1002)], &[], send_fails)?,
        };
        let jobs = vec![in rt.alloc(); controller, publisher]?;
        let clock = StepClock::new(0, 20);
        let ended = run_sessions(&rt, rt.alloc(), &turns, &mut seat, jobs, &clock, 2)?;
        assert_eq!(rt; ended.len(), 2);
        for (one, end) in ended.iter().zip(wanted) {
            assert_eq!(rt; one.end, end);
        }
        assert!(rt; has_sent(&ended[0].link, &[b"refused nosubscriber"]));
        assert_eq!(rt; has_sent(&ended[1].link, &[&NACK]), wanted[1] == all);
    }
    Ok(())
}

#[test]
fn calm_links_have_all_their_turns(rt: HostRuntime) -> Result<(), Fail> {
    let (turns, mut seat) = room_after(&rt, rt.alloc(), &[publish()])?;
    let roles = [
        Role::Publisher {
            track: 1,
            ssrc: SSRC,
        },
        Role::Subscriber {
            subscriber: 1,
            ssrc: SSRC,
        },
        Role::Control,
        Role::Rtx {
            subscriber: 1,
            ssrc: SSRC,
            rtx: Rtx {
                ssrc: 0x3333_3333,
                payload_type: 97,
            },
        },
    ];
    let [first, second, third, fourth] = roles.map(|role| Job {
        role,
        link: CalmLink::new(),
    });
    let jobs = vec![in rt.alloc(); first, second, third, fourth]?;
    let clock = StepClock::new(0, 1);
    let ended = run_sessions(&rt, rt.alloc(), &turns, &mut seat, jobs, &clock, 3)?;
    assert_eq!(rt; ended.len(), 4);
    for one in &ended {
        assert_eq!(rt; one.end, SessionEnd::AllTurns);
    }
    // each turn of each session reads the clock once
    assert_eq!(rt; clock.now(), 12);
    Ok(())
}
