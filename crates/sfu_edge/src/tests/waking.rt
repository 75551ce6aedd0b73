// Tests of which links wake which: with the table alone, and with links over sockets of this machine.
use super::{heard, heard_soon, open, packet};
use crate::{UdpPorts, WakeTable};
use mio::{Events, Poll, Token, Waker};
use sfu_base::{Link, PacketBuf, Ports};
use std::alloc::Global;
use std::io;
use std::test::Fail;
use std::time::Duration;

// Whether a waker of the poll was called since the last check.
fn is_called(poll: &mut Poll, events: &mut Events<Global>) -> io::Result<bool> {
    poll.poll(events, Some(Duration::ZERO))?;
    Ok(!events.is_empty())
}

// Whether a link would sleep now. Afterwards it is marked as running.
fn sleeps(table: &WakeTable, number: u64) -> bool {
    let sleeps = table.begin_sleep(number);
    table.end_sleep(number);
    sleeps
}

#[test]
fn a_follower_is_woken_before_its_sleep_in_it_and_when_it_is_gone(
    rt: HostRuntime,
) -> Result<(), Fail> {
    let table = WakeTable::new(rt.alloc())?;
    let mut poll = Poll::new(&rt)?;
    let mut events = Events::with_capacity(rt.alloc(), 2)?;
    table.bind(1, Waker::new(poll.registry(), Token(1))?);
    // Link 1 follows no link. It sent nothing, then a datagram that no link received, then one that is too short for a tail.
    table.wake_followers(0, 70);
    table.follow(1, 71);
    table.follow(1, 0);
    table.wake_followers(0, 70);
    assert_eq!(rt; sleeps(&table, 1), true);
    // Link 1 follows link 0. It is woken before it sleeps, so its waker isn't called.
    table.follow(1, 70);
    table.wake_followers(0, 72);
    assert_eq!(rt; is_called(&mut poll, &mut events)?, false);
    assert_eq!(rt; sleeps(&table, 1), false);
    assert_eq!(rt; sleeps(&table, 1), true);
    // Its waker wakes it once, between its last check and the system's wait.
    assert_eq!(rt; table.begin_sleep(1), true);
    table.wake_followers(0, 73);
    table.wake_followers(0, 74);
    assert_eq!(rt; is_called(&mut poll, &mut events)?, true);
    assert_eq!(rt; is_called(&mut poll, &mut events)?, false);
    table.end_sleep(1);
    assert_eq!(rt; sleeps(&table, 1), true);
    // From now on link 1 follows link 2. It never follows itself.
    table.wake_followers(2, 75);
    table.follow(1, 75);
    table.wake_followers(0, 76);
    assert_eq!(rt; sleeps(&table, 1), true);
    table.wake_followers(1, 77);
    table.follow(1, 77);
    table.wake_followers(1, 78);
    assert_eq!(rt; sleeps(&table, 1), true);
    // The poll of link 1 is dropped while the link sleeps.
    assert_eq!(rt; table.begin_sleep(1), true);
    drop(poll);
    table.wake_followers(2, 79);
    table.wake_followers(2, 80);
    assert_eq!(rt; sleeps(&table, 1), false);
    Ok(())
}

#[test]
fn a_link_that_sends_what_another_received_is_woken_by_it(rt: HostRuntime) -> Result<(), Fail> {
    let table = WakeTable::new(rt.alloc())?;
    let mut ports = UdpPorts::new(&rt, rt.alloc(), &table);
    let (far, _, peer) = open(&rt)?;
    let (free, at, local) = open(&rt)?;
    drop(free);
    let mut publisher = ports.bind(local, peer)?;
    let (_taker, _, peer) = open(&rt)?;
    let (free, _, local) = open(&rt)?;
    drop(free);
    let mut subscriber = ports.bind(local, peer)?;
    let mut forwarded = PacketBuf::new();
    for (bytes, wakes) in [([1u8; 20], false), ([2u8; 20], true), ([3u8; 20], true)] {
        far.send_to(&bytes, at)?;
        assert_eq!(rt; heard_soon(&mut publisher), (Ok(true), Some(bytes[0])));
        assert_eq!(rt; heard(&mut publisher), (Ok(false), Some(9)));
        assert_eq!(rt; sleeps(&table, 1), !wakes);
        // A forwarded packet has another header and the same payload.
        forwarded.fill(&[0u8; 12]);
        forwarded.append(&bytes[12..]);
        assert_eq!(rt; subscriber.send(&forwarded), Ok(()));
        assert_eq!(rt; heard(&mut subscriber), (Ok(false), Some(9)));
    }
    Ok(())
}

#[test]
fn followers_of_a_busy_link_continue_in_steps_behind_the_moment_that_it_expects(
    rt: HostRuntime,
) -> Result<(), Fail> {
    let table = WakeTable::new(rt.alloc())?;
    table.wake_followers(0, 70);
    for number in 1..6 {
        table.follow(number, 70);
    }
    assert_eq!(rt; table.next_turn(1), None);
    table.expect(0, Duration::from_millis(5));
    for (number, micros) in [(1, 5040), (2, 5080), (3, 5120), (4, 5000), (5, 5040)] {
        assert_eq!(rt;
            table.next_turn(number),
            Some(Duration::from_micros(micros))
        );
    }
    // In order: a link that follows no link, a follower of a link that isn't busy, and a link beyond the table.
    assert_eq!(rt; table.next_turn(6), None);
    table.wake_followers(2, 71);
    table.follow(1, 71);
    assert_eq!(rt; table.next_turn(1), None);
    assert_eq!(rt; table.next_turn(64), None);
    // Link 0 isn't busy any more.
    table.expect(0, Duration::ZERO);
    assert_eq!(rt; table.next_turn(2), None);
    Ok(())
}

#[test]
fn a_link_beyond_the_64th_wakes_none_and_is_woken_by_none(rt: HostRuntime) -> Result<(), Fail> {
    let table = WakeTable::new(rt.alloc())?;
    table.wake_followers(63, 70);
    table.follow(64, 70);
    table.wake_followers(63, 71);
    assert_eq!(rt; sleeps(&table, 64), true);
    table.wake_followers(64, 72);
    table.follow(63, 72);
    table.wake_followers(64, 73);
    assert_eq!(rt; sleeps(&table, 63), true);
    Ok(())
}
