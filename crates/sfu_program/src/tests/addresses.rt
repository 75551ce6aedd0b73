// Each port is bound at the two addresses of its line, in the order of the lines.
use super::serve::served;
use sfu_base::{Address, CalmLink, CalmPorts, Failed, Ports};
use std::test::Fail;

// The ports of a subscriber, of a controller, of a subscriber with an RTX stream, and of a publisher.
const FOUR: &str =
    "publish 1 plain 11111111 100\njoin 1 1 22222222 7 0 0\njoin 2 1 44444444 0 0 0\n\
    port 10.1.2.3:5001 192.168.7.9:6003 subscriber 1 22222222\nport 127.0.0.2:4999 172.16.254.1:65535 control\n\
    port 192.0.2.254:1 100.64.0.9:40001 rtx 2 44444444 33333333 97\n\
    port 198.51.100.77:5000 203.0.113.5:1 publisher 1 11111111\n";

// The local address and the peer's address of each line.
const WANTED: [(u32, u16); 8] = [
    (0x0a01_0203, 5001),
    (0xc0a8_0709, 6003),
    (0x7f00_0002, 4999),
    (0xac10_fe01, 65535),
    (0xc000_02fe, 1),
    (0x6440_0009, 40001),
    (0xc633_644d, 5000),
    (0xcb00_7105, 1),
];

// Ports that never fail, and record the addresses at which they were bound.
#[derive(Drop)]
struct NotingPorts {
    inner: CalmPorts,
    asked: Vec<(u32, u16)>,
}

impl Ports for NotingPorts {
    type Port = CalmLink;

    ghost returned = { λ s. ⟦<CalmPorts as Ports>⟧.returned s.inner };

    ghost bound = { λ s. ⟦<CalmPorts as Ports>⟧.bound s.inner };

    ghost back_count = { λ s. ⟦<CalmPorts as Ports>⟧.back_count s.inner };

    ghost faults = { λ s. ⟦<CalmPorts as Ports>⟧.faults s.inner };

    fn bind(&mut self, local: Address, peer: Address) -> Result<CalmLink, Failed> {
        let _ = self.asked.push((local.ip, local.port));
        let _ = self.asked.push((peer.ip, peer.port));
        self.inner.bind(local, peer)
    }

    fn back(&mut self, port: CalmLink) {
        self.inner.back(port)
    }

    fn lemma_were_bound(&self) {
        self.inner.lemma_were_bound()
    }
}

#[test]
fn each_port_is_bound_at_the_addresses_of_its_line_in_order(rt: HostRuntime) -> Result<(), Fail> {
    let alloc = rt.alloc();
    let inner = CalmPorts::new(alloc)?;
    let mut ports = NotingPorts {
        inner,
        asked: Vec::new(alloc),
    };
    let (status, written) = served(&rt, alloc, "1", FOUR.as_bytes(), &mut ports)?;
    assert_eq!(rt;
        written.as_slice(),
        b"ok\nok\nok\nsession 1 all\nsession 2 all\nsession 3 all\nsession 4 all\n".as_slice()
    );
    assert_eq!(rt; status, 0);
    assert_eq!(rt; ports.asked.as_slice(), WANTED.as_slice());
    Ok(())
}
