// OBU headers laid out by hand from the AV1 Bitstream Specification, sections 5.3.2 and 5.3.3, and packets whose elements do or don't join.

use obu_element::{JoinFault, Joiner, ObuFault, ObuHeader, header};
use std::process::Abort;
use std::test::Fail;

const fn obu(kind: u8, temporal: u8, spatial: u8, has_size: bool, len: u8) -> ObuHeader {
    ObuHeader {
        kind,
        temporal,
        spatial,
        has_size,
        len,
    }
}

#[test]
fn each_header_says_its_fields(rt: HostRuntime) {
    let rows: [(&[u8], Result<ObuHeader, ObuFault>); 14] = [
        // a frame without a size
        (&[0x30], Ok(obu(6, 0, 0, false, 1))),
        // a temporal delimiter and a sequence header with their sizes
        (&[0x12, 0x00], Ok(obu(2, 0, 0, true, 1))),
        (&[0x0A, 0x0B, 0xAA], Ok(obu(1, 0, 0, true, 1))),
        // layers in an extension byte, whose reserved bits are ignored
        (&[0x34, 0x75], Ok(obu(6, 3, 2, false, 2))),
        (&[0x36, 0xF8, 0x00], Ok(obu(6, 7, 3, true, 2))),
        (&[0x24, 0x20], Ok(obu(4, 1, 0, false, 2))),
        (&[0x24, 0x08], Ok(obu(4, 0, 1, false, 2))),
        // the reserved bit, and the least and the greatest type
        (&[0x31, 0xFF], Ok(obu(6, 0, 0, false, 1))),
        (&[0x00], Ok(obu(0, 0, 0, false, 1))),
        (&[0x7B], Ok(obu(15, 0, 0, true, 1))),
        // faults
        (&[], Err(ObuFault::Empty)),
        (&[0x80], Err(ObuFault::Forbidden)),
        (&[0xB4], Err(ObuFault::Forbidden)),
        (&[0x34], Err(ObuFault::Cut)),
    ];
    for (bytes, wanted) in rows {
        assert_eq!(rt; header(bytes), wanted);
    }
}

// Feeds packets, each given by its bits Z and Y. Returns the result for the last packet, and whether no element is open after it.
fn fed(packets: &[(bool, bool)]) -> (Result<(), JoinFault>, bool) {
    let mut joiner = Joiner::new();
    let mut last = Ok(());
    for (continues, carries) in packets {
        last = joiner.feed(*continues, *carries);
    }
    (last, joiner.is_closed())
}

#[test]
fn packets_join_where_z_is_the_former_y(rt: HostRuntime) {
    let unopened = JoinFault {
        carried: false,
        continues: true,
    };
    let left_open = JoinFault {
        carried: true,
        continues: false,
    };
    let rows: [(&[(bool, bool)], Result<(), JoinFault>, bool); 8] = [
        (&[], Ok(()), true),
        (&[(false, false)], Ok(()), true),
        (&[(false, true)], Ok(()), false),
        (&[(true, false)], Err(unopened), true),
        (&[(false, true), (true, true), (true, false)], Ok(()), true),
        (&[(false, true), (false, false)], Err(left_open), false),
        (&[(false, false), (true, true)], Err(unopened), true),
        // a refused packet changes nothing
        (
            &[(false, true), (false, false), (true, false)],
            Ok(()),
            true,
        ),
    ];
    for (packets, wanted, closed) in rows {
        assert_eq!(rt; fed(packets), (wanted, closed));
    }
}

#[test]
fn two_packets_carry_one_frame_header(rt: HostRuntime) -> Result<(), Fail> {
    let mut joiner = Joiner::new();
    joiner.feed(false, true)?;
    assert!(rt; !joiner.is_closed());
    joiner.feed(true, false)?;
    assert!(rt; joiner.is_closed());
    let read = header(&[0x34, 0x75])?;
    assert_eq!(rt;
        (read.kind, read.temporal, read.spatial, read.len),
        (6, 3, 2, 2)
    );
    Ok(())
}
