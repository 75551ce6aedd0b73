// Links, ports and the clocks, each used once through its trait.
ghost use Rattle.std.specs.Prelude.{All, IfOk};
ghost use Rattle.sfu_base.specs.Links.{IsFresh};

use crate::{
    Address, CalmLink, CalmPorts, Clock, Failed, Link, MemLink, MemPorts, PacketBuf, Ports,
    StepClock,
};
use std::alloc::{AllocError, Global};
use std::test::Fail;

const LOCAL: Address = Address {
    ip: 0x7f00_0001,
    port: 5000,
};

const PEER: Address = Address {
    ip: 0x7f00_0001,
    port: 6000,
};

// A packet of one byte.
fn packet(byte: u8) -> PacketBuf {
    let mut packet = PacketBuf::new();
    packet.fill(&[byte]);
    packet
}

// One link, which receives one datagram.
#[tactic(auto, using(crate::proofs::Fresh::one_more_fresh, crate::proofs::Fresh::none_fresh))]
fn one(alloc: Global) -> Result<Vec<MemLink>, AllocError>
    ensures { IfOk result (λ links. All IsFresh links.items) }
{
    let mut prepared = Vec::new(alloc);
    prepared.push(packet(1))?;
    let link = MemLink::new(alloc, prepared, Vec::new(alloc), Vec::new(alloc));
    let mut links = Vec::new(alloc);
    links.push(link)?;
    Ok(links)
}

// A link that receives two datagrams. Its second receive and its first send fail.
fn failing(alloc: Global) -> Result<MemLink, AllocError> {
    let mut prepared = Vec::new(alloc);
    prepared.push(packet(1))?;
    prepared.push(packet(2))?;
    let receive_fails = [1u64].to_vec(alloc)?;
    let send_fails = [0u64].to_vec(alloc)?;
    Ok(MemLink::new(alloc, prepared, receive_fails, send_fails))
}

// The result of a receive, and the first byte of the buffer, which was 9 before.
fn heard<L: Link>(link: &mut L) -> (Result<bool, Failed>, Option<u8>) {
    let mut buf = packet(9);
    let answer = link.receive(&mut buf);
    (answer, buf.bytes().first().copied())
}

#[test]
fn a_link_in_memory_brings_its_datagrams_keeps_what_is_sent_and_fails_where_it_is_to(
    rt: HostRuntime,
) -> Result<(), Fail> {
    let mut link = failing(rt.alloc())?;
    assert_eq!(rt; heard(&mut link), (Ok(true), Some(1)));
    assert_eq!(rt; heard(&mut link), (Err(Failed), Some(9)));
    assert_eq!(rt; heard(&mut link), (Ok(true), Some(2)));
    assert_eq!(rt; heard(&mut link), (Ok(false), Some(9)));
    assert_eq!(rt; link.send(&packet(3)), Err(Failed));
    assert_eq!(rt; link.send(&packet(4)), Ok(()));
    assert_eq!(rt; link.sent().len(), 1);
    assert_eq!(rt; link.sent()[0].bytes(), [4u8].as_slice());
    assert_eq!(rt; link.faults(), 2);
    let mut calm = CalmLink::new();
    assert_eq!(rt; heard(&mut calm), (Ok(false), Some(9)));
    assert_eq!(rt; calm.send(&packet(3)), Ok(()));
    Ok(())
}

#[test]
fn ports_in_memory_give_their_links_and_keep_what_comes_back(rt: HostRuntime) -> Result<(), Fail> {
    let links = one(rt.alloc())?;
    let mut ports = MemPorts::new(rt.alloc(), links, [1u64].to_vec(rt.alloc())?)?;
    let mut first = ports.bind(LOCAL, PEER)?;
    assert_eq!(rt; heard(&mut first), (Ok(true), Some(1)));
    assert_eq!(rt; ports.bind(LOCAL, PEER).is_err(), true);
    let mut second = ports.bind(LOCAL, PEER)?;
    assert_eq!(rt; heard(&mut second), (Ok(false), Some(9)));
    assert_eq!(rt; first.send(&packet(5)), Ok(()));
    ports.back(second);
    ports.back(first);
    assert_eq!(rt; ports.returned().len(), 2);
    assert_eq!(rt; ports.returned()[0].sent().len(), 0);
    assert_eq!(rt; ports.returned()[1].sent().len(), 1);
    let mut calm = CalmPorts::new(rt.alloc())?;
    let mut port = calm.bind(LOCAL, PEER)?;
    assert_eq!(rt; heard(&mut port), (Ok(false), Some(9)));
    calm.back(port);
    Ok(())
}

#[test]
fn a_step_clock_begins_at_its_start_and_adds_its_step_once_a_call(rt: HostRuntime) {
    let clock = StepClock::new(5, 20);
    assert_eq!(rt; (clock.now(), clock.now(), clock.now()), (5, 25, 45));
    let clock = StepClock::new(u64::MAX, 2);
    assert_eq!(rt; (clock.now(), clock.now(), clock.now()), (u64::MAX, 1, 3));
}
