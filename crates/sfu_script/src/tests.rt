// Tables of lines, replies and other texts.
use crate::{
    Calls, Entry, Journal, LineReader, PortLine, PortRole, is_skipped, read_actor_line, read_call,
    read_packet, read_port, write_call, write_complaint, write_end, write_entry, write_line_fault,
    write_obu, write_record_fault, write_reply, write_short,
};
use forwarding_model::Complaint;
use sfu_base::{Blob, Call, Kind, PacketBuf, Refusal, Reply, RtpFault, Scratch, Verdict};
use std::test::Fail;

// A packet as three numbers: its length, its first byte and its last byte.
fn ends(bytes: &PacketBuf) -> [u64; 3] {
    let bytes = bytes.bytes();
    let first = bytes.first().copied().unwrap_or(0);
    let last = bytes.last().copied().unwrap_or(0);
    [bytes.len() as u64, u64::from(first), u64::from(last)]
}

// A call as numbers: its kind, and its fields.
fn numbers(call: &Call) -> [u64; 7] {
    match call {
        Call::Publish {
            track,
            kind,
            ssrc,
            hold,
        } => {
            let (which, id) = match kind {
                Kind::Plain => (1, 0),
                Kind::Layered { id } => (2, u64::from(*id)),
            };
            let (track, ssrc) = (u64::from(*track), u64::from(*ssrc));
            [which, track, ssrc, u64::from(*hold), id, 0, 0]
        }
        Call::Unpublish { track } => [3, u64::from(*track), 0, 0, 0, 0, 0],
        Call::Packet {
            track,
            moment,
            bytes,
        } => {
            let [count, first, last] = ends(bytes);
            [4, u64::from(*track), *moment, count, first, last, 0]
        }
        Call::Tick { track, moment } => [5, u64::from(*track), *moment, 0, 0, 0, 0],
        Call::Join {
            subscriber,
            track,
            ssrc,
            first,
            wish,
        } => [
            6,
            u64::from(*subscriber),
            u64::from(*track),
            u64::from(*ssrc),
            u64::from(*first),
            u64::from(wish.spatial),
            u64::from(wish.temporal),
        ],
        Call::Leave { subscriber } => [7, u64::from(*subscriber), 0, 0, 0, 0, 0],
        Call::Aim { subscriber, wish } => [
            8,
            u64::from(*subscriber),
            u64::from(wish.spatial),
            u64::from(wish.temporal),
            0,
            0,
            0,
        ],
        Call::Take { subscriber } => [9, u64::from(*subscriber), 0, 0, 0, 0, 0],
        Call::Resend { subscriber, seq } => {
            [10, u64::from(*subscriber), u64::from(*seq), 0, 0, 0, 0]
        }
        Call::Missing { track } => [11, u64::from(*track), 0, 0, 0, 0, 0],
        Call::KeyWanted { track } => [12, u64::from(*track), 0, 0, 0, 0, 0],
        Call::Plead { subscriber } => [13, u64::from(*subscriber), 0, 0, 0, 0, 0],
        Call::Why { subscriber, number } => [14, u64::from(*subscriber), *number, 0, 0, 0, 0],
    }
}

// Lines of the grammar, each with its call. The numbers in them are 0 and the greatest of their type.
const LINES: [(&[u8], [u64; 7]); 33] = [
    (
        b"publish 1 plain 11111111 100",
        [1, 1, 286331153, 100, 0, 0, 0],
    ),
    (b"publish 0 plain 00000000 0", [1, 0, 0, 0, 0, 0, 0]),
    (
        b"publish 4294967295 plain ffffffff 4294967295",
        [1, 4294967295, 4294967295, 4294967295, 0, 0, 0],
    ),
    (
        b"publish 1 layered 11111111 100 4",
        [2, 1, 286331153, 100, 4, 0, 0],
    ),
    (
        b"publish 4294967295 layered 0000000a 4294967295 255",
        [2, 4294967295, 10, 4294967295, 255, 0, 0],
    ),
    (b"unpublish 3", [3, 3, 0, 0, 0, 0, 0]),
    (b"unpublish 4294967295", [3, 4294967295, 0, 0, 0, 0, 0]),
    (
        b"packet 1 0 806000010000000011111111aabb",
        [4, 1, 0, 14, 128, 187, 0],
    ),
    (b"packet 0 0 00", [4, 0, 0, 1, 0, 0, 0]),
    (
        b"packet 10 999999999999999999 00",
        [4, 10, 999999999999999999, 1, 0, 0, 0],
    ),
    (
        b"packet 9 9999999999999999999 00",
        [4, 9, 9999999999999999999, 1, 0, 0, 0],
    ),
    (
        b"packet 4294967295 18446744073709551615 abcdef",
        [4, 4294967295, 18446744073709551615, 3, 171, 239, 0],
    ),
    (b"tick 1 50", [5, 1, 50, 0, 0, 0, 0]),
    (
        b"tick 4294967295 18446744073709551615",
        [5, 4294967295, 18446744073709551615, 0, 0, 0, 0],
    ),
    (b"join 1 2 22222222 7 3 4", [6, 1, 2, 572662306, 7, 3, 4]),
    (b"join 0 0 00000000 0 0 0", [6, 0, 0, 0, 0, 0, 0]),
    (
        b"join 4294967295 4294967295 ffffffff 65535 255 255",
        [6, 4294967295, 4294967295, 4294967295, 65535, 255, 255],
    ),
    (b"leave 2", [7, 2, 0, 0, 0, 0, 0]),
    (b"leave 4294967295", [7, 4294967295, 0, 0, 0, 0, 0]),
    (b"aim 1 2 3", [8, 1, 2, 3, 0, 0, 0]),
    (
        b"aim 4294967295 255 255",
        [8, 4294967295, 255, 255, 0, 0, 0],
    ),
    (b"take 1", [9, 1, 0, 0, 0, 0, 0]),
    (b"take 4294967295", [9, 4294967295, 0, 0, 0, 0, 0]),
    (b"resend 1 1000", [10, 1, 1000, 0, 0, 0, 0]),
    (
        b"resend 4294967295 65535",
        [10, 4294967295, 65535, 0, 0, 0, 0],
    ),
    (b"missing 1", [11, 1, 0, 0, 0, 0, 0]),
    (b"missing 4294967295", [11, 4294967295, 0, 0, 0, 0, 0]),
    (b"key 1", [12, 1, 0, 0, 0, 0, 0]),
    (b"key 4294967295", [12, 4294967295, 0, 0, 0, 0, 0]),
    (b"plead 1", [13, 1, 0, 0, 0, 0, 0]),
    (b"plead 4294967295", [13, 4294967295, 0, 0, 0, 0, 0]),
    (b"why 1 7", [14, 1, 7, 0, 0, 0, 0]),
    (
        b"why 4294967295 18446744073709551615",
        [14, 4294967295, 18446744073709551615, 0, 0, 0, 0],
    ),
];

// Lines outside the grammar.
const OUTSIDE: [&[u8]; 91] = [
    b"",
    b" ",
    b"#",
    b"# take 1",
    b"take",
    b"take ",
    b"take  1",
    b" take 1",
    b"take 1 ",
    b"take 1\r",
    b"take\t1",
    b"take 01",
    b"take 00",
    b"take +1",
    b"take -1",
    b"take 1a",
    b"take 0x1",
    b"take \xd9\xa1",
    b"take 1 2",
    b"take 4294967296",
    b"take 18446744073709551616",
    b"take 99999999999999999999999999",
    b"TAKE 1",
    b"takes 1",
    b"leave",
    b"leave 4294967296",
    b"leaves 1",
    b"publish",
    b"publish 1",
    b"publish 1 plain",
    b"publish 1 plain 11111111",
    b"publish 1 plain 11111111 ",
    b"publish 1 plain 11111111 100 ",
    b"publish 1 plain 11111111 100 4",
    b"publish 1 plain  11111111 100",
    b"publish 1 plain 1111111 100",
    b"publish 1 plain 111111111 100",
    b"publish 1 plain 1111111g 100",
    b"publish 1 plain 100 11111111",
    b"publish plain 1 11111111 100",
    b"publish 1 Plain 11111111 100",
    b"publish 1 layered 11111111 100",
    b"publish 1 layered 11111111 100 256",
    b"publish 1 layered 11111111 100 4 4",
    b"publish 1 layer 11111111 100 4",
    b"publish 4294967296 plain 11111111 100",
    b"publish 1 plain 11111111 4294967296",
    b"publish 1 plain 11111111 0100",
    b"unpublish 4294967296",
    b"unpublish 1 1",
    b"packet 1 0",
    b"packet 1 0 ",
    b"packet 1 0 8",
    b"packet 1 0 80605",
    b"packet 1 0 0g",
    b"packet 1 0 00 ",
    b"packet 1 0 00 00",
    b"packet 1 00 00",
    b"packet 01 0 00",
    b"packet 1 01 00",
    b"packet  0 00",
    b"packet 1  00",
    b"packet 1 1a 00",
    b"packet 4294967296 0 00",
    b"packet 1 18446744073709551616 00",
    b"tick 1",
    b"tick 1 18446744073709551616",
    b"tick 1 0 0",
    b"join 1 1 22222222 7 0",
    b"join 1 1 22222222 7 0 0 0",
    b"join 4294967296 1 22222222 7 0 0",
    b"join 1 22222222 1 7 0 0",
    b"join 1 1 22222222 65536 0 0",
    b"join 1 1 22222222 7 256 0",
    b"join 1 1 22222222 7 0 256",
    b"aim 1 2",
    b"aim 1 256 0",
    b"aim 1 0 256",
    b"aim 1 0 0 0",
    b"resend 1",
    b"resend 1 65536",
    b"missing",
    b"missing 1 1",
    b"key 1 1",
    b"keys 1",
    b"plead 1 ",
    b"why 1",
    b"why 1 18446744073709551616",
    b"why 1 none",
    b"@1 take 1",
    b"port 1",
];

#[test]
fn lines_say_their_calls_and_are_written_as_they_stand(rt: HostRuntime) -> Result<(), Fail> {
    let mut reader = LineReader::new();
    let mut out = Blob::new(rt.alloc());
    for (line, said) in LINES.iter() {
        let call = read_call(line)?;
        assert_eq!(rt; numbers(&call), *said);
        let call = reader.read(line)?;
        assert_eq!(rt; numbers(call), *said);
        out.clear();
        if let Call::Packet { bytes, .. } = call {
            assert!(rt; !bytes.bytes().is_empty());
        }
        write_call(call, &mut out)?;
        assert_eq!(rt; out.bytes(), *line);
    }
    for line in OUTSIDE.iter() {
        assert!(rt; read_call(line).is_err());
        assert!(rt; reader.read(line).is_err());
    }
    Ok(())
}

#[test]
fn hex_digits_of_either_case_are_read(rt: HostRuntime) -> Result<(), Fail> {
    let call = read_call(b"publish 10 plain 0000000A 10")?;
    assert_eq!(rt; numbers(&call), [1, 10, 10, 10, 0, 0, 0]);
    let call = read_call(b"packet 1 0 AbCdEF")?;
    assert_eq!(rt; numbers(&call), [4, 1, 0, 3, 0xab, 0xef, 0]);
    let mut packet = PacketBuf::new();
    read_packet(b"FFfF00", &mut packet)?;
    assert_eq!(rt; packet.bytes(), b"\xff\xff\x00".as_slice());
    Ok(())
}

#[test]
fn a_packet_has_up_to_2048_bytes(rt: HostRuntime) -> Result<(), Fail> {
    let mut line = [b'f'; 11 + 2 * 2049];
    line[..11].copy_from_slice(b"packet 1 0 ");
    let mut reader = LineReader::new();
    let mut packet = PacketBuf::new();
    for count in [1, 2, 255, 256, 257, 1500, 2047, 2048, 1] {
        let whole = &line[..11 + 2 * count];
        let said = [4, 1, 0, count as u64, 255, 255, 0];
        let call = read_call(whole)?;
        assert_eq!(rt; numbers(&call), said);
        let call = reader.read(whole)?;
        assert_eq!(rt; numbers(call), said);
        assert!(rt; read_call(&line[..11 + 2 * count - 1]).is_err());
        read_packet(&line[11..11 + 2 * count], &mut packet)?;
        assert_eq!(rt; ends(&packet), [count as u64, 255, 255]);
        assert!(rt; read_packet(&line[11..11 + 2 * count - 1], &mut packet).is_err());
        assert_eq!(rt; packet.bytes().len(), count);
    }
    assert!(rt; read_call(&line).is_err());
    assert!(rt; reader.read(&line).is_err());
    assert!(rt; read_packet(&line[11..], &mut packet).is_err());
    assert!(rt; read_packet(b"", &mut packet).is_err());
    assert!(rt; read_packet(b" ff", &mut packet).is_err());
    assert_eq!(rt; ends(&packet), [1, 255, 255]);
    Ok(())
}

#[test]
fn actors_have_the_numbers_1_to_8(rt: HostRuntime) -> Result<(), Fail> {
    let (actor, call) = read_actor_line(b"@1 take 3")?;
    assert_eq!(rt; actor, 1);
    assert_eq!(rt; numbers(&call), [9, 3, 0, 0, 0, 0, 0]);
    let (actor, call) = read_actor_line(b"@8 why 1 7")?;
    assert_eq!(rt; actor, 8);
    assert_eq!(rt; numbers(&call), [14, 1, 7, 0, 0, 0, 0]);
    let outside: [&[u8]; 10] = [
        b"take 1",
        b"@0 take 1",
        b"@9 take 1",
        b"@10 take 1",
        b"@ take 1",
        b"@1 # c",
        b"@1 ",
        b"@1",
        b"@1  take 1",
        b"@1 @1 take 1",
    ];
    for line in outside {
        assert!(rt; read_actor_line(line).is_err());
    }
    Ok(())
}

#[test]
fn empty_lines_and_comments_are_skipped(rt: HostRuntime) {
    assert!(rt; is_skipped(b""));
    assert!(rt; is_skipped(b"#"));
    assert!(rt; is_skipped(b"# take 1 \xff"));
    assert!(rt; !is_skipped(b" #"));
    assert!(rt; !is_skipped(b"take 1"));
    assert!(rt; !is_skipped(b"\r"));
}

// Replies other than packets and numbers, with their texts.
const REPLIES: [(Reply, &[u8]); 35] = [
    (Reply::Done, b"ok"),
    (Reply::Key { wanted: true }, b"key yes"),
    (Reply::Key { wanted: false }, b"key no"),
    (Reply::Cause(Verdict::Passed), b"passed"),
    (
        Reply::Cause(Verdict::NotOfTarget { target: Some(1) }),
        b"notoftarget 1",
    ),
    (
        Reply::Cause(Verdict::NotOfTarget { target: None }),
        b"notoftarget none",
    ),
    (
        Reply::Cause(Verdict::Behind { fdiff: 2, start: 5 }),
        b"behind 2 5",
    ),
    (
        Reply::Cause(Verdict::Reference { number: 3 }),
        b"reference 3",
    ),
    (
        Reply::Cause(Verdict::Full {
            queued: 511,
            needed: 2,
        }),
        b"full 511 2",
    ),
    (
        Reply::Cause(Verdict::Link { at: 4, number: 3 }),
        b"link 4 3",
    ),
    (Reply::Cause(Verdict::Unopened { since: 1 }), b"unopened 1"),
    (
        Reply::Cause(Verdict::Hole {
            below: None,
            above: 5,
        }),
        b"hole none 5",
    ),
    (
        Reply::Cause(Verdict::Hole {
            below: Some(1),
            above: 18446744073709551615,
        }),
        b"hole 1 18446744073709551615",
    ),
    (Reply::Refused(Refusal::NoTrack), b"refused notrack"),
    (
        Reply::Refused(Refusal::NoSubscriber),
        b"refused nosubscriber",
    ),
    (
        Reply::Refused(Refusal::NumberUsed {
            highest: 4294967295,
        }),
        b"refused numberused 4294967295",
    ),
    (
        Reply::Refused(Refusal::TooMany { live: 64 }),
        b"refused toomany 64",
    ),
    (
        Reply::Refused(Refusal::BadExtensionId),
        b"refused badextensionid",
    ),
    (
        Reply::Refused(Refusal::TooBig { len: 1501 }),
        b"refused toobig 1501",
    ),
    (
        Reply::Refused(Refusal::Unreadable(RtpFault::Short)),
        b"refused unreadable short",
    ),
    (
        Reply::Refused(Refusal::Unreadable(RtpFault::Version)),
        b"refused unreadable version",
    ),
    (
        Reply::Refused(Refusal::Unreadable(RtpFault::Csrc)),
        b"refused unreadable csrc",
    ),
    (
        Reply::Refused(Refusal::Unreadable(RtpFault::Extension)),
        b"refused unreadable extension",
    ),
    (
        Reply::Refused(Refusal::Unreadable(RtpFault::Padding)),
        b"refused unreadable padding",
    ),
    (
        Reply::Refused(Refusal::WrongSsrc {
            got: 0xA,
            wanted: 0x1111_1111,
        }),
        b"refused wrongssrc 0000000a 11111111",
    ),
    (Reply::Refused(Refusal::Spent), b"refused spent"),
    (
        Reply::Refused(Refusal::Late {
            next: 18446744073709551615,
        }),
        b"refused late 18446744073709551615",
    ),
    (Reply::Refused(Refusal::Repeat), b"refused repeat"),
    (Reply::Refused(Refusal::Empty), b"empty"),
    (
        Reply::Refused(Refusal::NotKept {
            oldest: 7,
            next: 65535,
        }),
        b"notkept 7 65535",
    ),
    (
        Reply::Refused(Refusal::Ahead { newest: Some(9) }),
        b"refused ahead 9",
    ),
    (
        Reply::Refused(Refusal::Ahead { newest: None }),
        b"refused ahead none",
    ),
    (
        Reply::Refused(Refusal::TooOld { oldest: 5 }),
        b"refused tooold 5",
    ),
    (Reply::Refused(Refusal::Plain), b"refused plain"),
    (Reply::Refused(Refusal::NoMemory), b"refused nomemory"),
];

#[test]
fn replies_have_their_texts(rt: HostRuntime) -> Result<(), Fail> {
    let mut scratch = Scratch::new();
    scratch.packet.fill(b"\x80\x0f\xab");
    let mut out = Blob::new(rt.alloc());
    let mut short = PacketBuf::new();
    for (reply, text) in REPLIES.iter() {
        out.clear();
        write_reply(reply, &scratch, &mut out)?;
        assert_eq!(rt; out.bytes(), *text);
        if !matches!(reply, Reply::Packet | Reply::Names) {
            write_short(reply, &mut short);
            assert_eq!(rt; short.bytes(), *text);
        }
    }
    out.clear();
    write_reply(&Reply::Packet, &scratch, &mut out)?;
    assert_eq!(rt; out.bytes(), b"packet 800fab".as_slice());
    out.clear();
    write_reply(&Reply::Names, &scratch, &mut out)?;
    assert_eq!(rt; out.bytes(), b"missing".as_slice());
    scratch.names.push(65_535);
    scratch.names.push(0);
    scratch.names.push(7);
    out.clear();
    write_reply(&Reply::Names, &scratch, &mut out)?;
    assert_eq!(rt; out.bytes(), b"missing 65535 0 7".as_slice());
    Ok(())
}

#[test]
fn texts_are_appended(rt: HostRuntime) -> Result<(), Fail> {
    let mut scratch = Scratch::new();
    let mut out = Blob::new(rt.alloc());
    write_line_fault(1, &mut out)?;
    write_reply(&Reply::Packet, &scratch, &mut out)?;
    write_line_fault(4294967296, &mut out)?;
    write_line_fault(18446744073709551615, &mut out)?;
    assert_eq!(rt;
        out.bytes(),
        b"line 1packet line 4294967296line 18446744073709551615".as_slice()
    );
    for count in [255, 256, 257, 2048] {
        scratch.packet.fill(&[0xa5; 2048][..count]);
        out.clear();
        write_reply(&Reply::Packet, &scratch, &mut out)?;
        let text = out.bytes();
        assert_eq!(rt; text.len(), 7 + 2 * count);
        assert!(rt; text.len() > 7);
        assert!(rt; text[7..].chunks(2).all(|digits| digits == b"a5".as_slice()));
    }
    Ok(())
}

#[test]
fn complaints_and_ends_have_their_texts(rt: HostRuntime) -> Result<(), Fail> {
    let complaints: [(Complaint, &[u8]); 6] = [
        (Complaint::Unread, b"line 3 unread"),
        (
            Complaint::OtherSource {
                had: 0x1111_1111,
                got: 0x2222_222b,
            },
            b"line 3 othersource 11111111 2222222b",
        ),
        (
            Complaint::Sequence { had: 65535, got: 1 },
            b"line 3 sequence 65535 1",
        ),
        (Complaint::NoStructure, b"line 3 nostructure"),
        (Complaint::NotWhole, b"line 3 notwhole"),
        (
            Complaint::MissingReference { frame: 3, fdiff: 2 },
            b"line 3 missingreference 3 2",
        ),
    ];
    let mut out = Blob::new(rt.alloc());
    for (complaint, text) in complaints.iter() {
        out.clear();
        write_complaint(3, complaint, &mut out)?;
        assert_eq!(rt; out.bytes(), *text);
    }
    out.clear();
    write_obu(4294967295, &mut out)?;
    write_record_fault(4294967296, &mut out)?;
    assert_eq!(rt;
        out.bytes(),
        b"line 4294967295 oburecord 4294967296".as_slice()
    );
    out.clear();
    write_end(1, None, &mut out)?;
    write_end(64, Some(18446744073709551615), &mut out)?;
    assert_eq!(rt;
        out.bytes(),
        b"session 1 allsession 64 fault 18446744073709551615".as_slice()
    );
    Ok(())
}

#[test]
fn an_entry_has_two_lines(rt: HostRuntime) -> Result<(), Fail> {
    let entry = Entry {
        actor: 8,
        call: Call::Take { subscriber: 2 },
        reply: Blob::of(b"refused nosubscriber".to_vec(rt.alloc())?),
    };
    let mut out = Blob::new(rt.alloc());
    write_entry(&entry, &mut out)?;
    assert_eq!(rt;
        out.bytes(),
        b"@8 take 2\nrefused nosubscriber\n".as_slice()
    );
    let journal = Journal::of(vec![in rt.alloc(); entry]?);
    assert_eq!(rt; journal.entries().len(), 1);
    let calls = Calls::of(vec![in rt.alloc(); Call::Take { subscriber: 2 }]?);
    assert_eq!(rt; calls.calls().len(), 1);
    Ok(())
}

// A port line as numbers: its addresses and its role.
fn port_numbers(line: &PortLine) -> [u64; 9] {
    let (role, number, ssrc, rtx_ssrc, payload_type) = match line.role {
        PortRole::Publisher { track, ssrc } => (1, track, ssrc, 0, 0),
        PortRole::Subscriber { subscriber, ssrc } => (2, subscriber, ssrc, 0, 0),
        PortRole::Control => (3, 0, 0, 0, 0),
        PortRole::Rtx {
            subscriber,
            ssrc,
            rtx_ssrc,
            payload_type,
        } => (4, subscriber, ssrc, rtx_ssrc, payload_type),
    };
    [
        u64::from(line.local.ip),
        u64::from(line.local.port),
        u64::from(line.peer.ip),
        u64::from(line.peer.port),
        role,
        u64::from(number),
        u64::from(ssrc),
        u64::from(rtx_ssrc),
        u64::from(payload_type),
    ]
}

#[test]
fn port_lines_say_addresses_and_roles(rt: HostRuntime) -> Result<(), Fail> {
    let lines: [(&[u8], [u64; 9]); 8] = [
        (
            b"port 127.0.0.1:5000 10.1.2.3:6000 publisher 1 11111111",
            [
                0x7f00_0001,
                5000,
                0x0a01_0203,
                6000,
                1,
                1,
                0x1111_1111,
                0,
                0,
            ],
        ),
        (
            b"port 0.0.0.0:0 255.255.255.255:65535 subscriber 4294967295 FFFFffff",
            [0, 0, 4294967295, 65535, 2, 4294967295, 4294967295, 0, 0],
        ),
        (
            b"port 255.255.255.255:65535 0.0.0.0:0 subscriber 0 00000000",
            [4294967295, 65535, 0, 0, 2, 0, 0, 0, 0],
        ),
        (
            b"port 1.2.3.4:5 6.7.8.9:10 control",
            [0x0102_0304, 5, 0x0607_0809, 10, 3, 0, 0, 0, 0],
        ),
        (
            b"port 1.2.3.4:5 6.7.8.9:10 rtx 7 22222222 33333333 96",
            [
                0x0102_0304,
                5,
                0x0607_0809,
                10,
                4,
                7,
                0x2222_2222,
                0x3333_3333,
                96,
            ],
        ),
        (
            b"port 0.0.0.0:0 0.0.0.0:0 rtx 4294967295 ffffFFFF 00000000 0",
            [0, 0, 0, 0, 4, 4294967295, 4294967295, 0, 0],
        ),
        (
            b"port 0.0.0.0:0 0.0.0.0:0 rtx 0 00000000 00000001 63",
            [0, 0, 0, 0, 4, 0, 0, 1, 63],
        ),
        (
            b"port 0.0.0.0:0 0.0.0.0:0 rtx 0 00000000 ffffffff 127",
            [0, 0, 0, 0, 4, 0, 0, 4294967295, 127],
        ),
    ];
    for (line, said) in lines.iter() {
        let port = read_port(line)?;
        assert_eq!(rt; port_numbers(&port), *said);
    }
    let outside: [&[u8]; 37] = [
        b"port",
        b"port 1.2.3.4:5 6.7.8.9:10",
        b"port 1.2.3.4:5 6.7.8.9:10 ",
        b"port 1.2.3.4:5 6.7.8.9:10 control ",
        b"port 1.2.3.4:5 6.7.8.9:10 control 1",
        b"port 1.2.3.4:5  6.7.8.9:10 control",
        b"port 256.2.3.4:5 6.7.8.9:10 control",
        b"port 1.256.3.4:5 6.7.8.9:10 control",
        b"port 1.2.256.4:5 6.7.8.9:10 control",
        b"port 1.2.3.256:5 6.7.8.9:10 control",
        b"port 1.2.3.4:65536 6.7.8.9:10 control",
        b"port 1.2.3.4:5 256.7.8.9:10 control",
        b"port 1.2.3.4:5 6.256.8.9:10 control",
        b"port 1.2.3.4:5 6.7.256.9:10 control",
        b"port 1.2.3.4:5 6.7.8.256:10 control",
        b"port 1.2.3.4:5 6.7.8.9:65536 control",
        b"port 1.2.3.4:5 6.7.8.9:10 subscriber 4294967296 11111111",
        b"port 1.2.3.4:5 6.7.8.9:10 subscriber 1 111111111",
        b"port 1.2.3.4:05 6.7.8.9:10 control",
        b"port 01.2.3.4:5 6.7.8.9:10 control",
        b"port 1.2.3:5 6.7.8.9:10 control",
        b"port 1.2.3.4.5:5 6.7.8.9:10 control",
        b"port 1.2.3.4 6.7.8.9:10 control",
        b"port 1.2.3.4:5:5 6.7.8.9:10 control",
        b"port 1.2.3.4:5 6.7.8.9:10 publisher 4294967296 11111111",
        b"port 1.2.3.4:5 6.7.8.9:10 publisher 1 1111111",
        b"port 1.2.3.4:5 6.7.8.9:10 subscriber 1",
        b"port 1.2.3.4:5 6.7.8.9:10 rtx 7 22222222 33333333 64",
        b"port 1.2.3.4:5 6.7.8.9:10 rtx 7 22222222 33333333 95",
        b"port 1.2.3.4:5 6.7.8.9:10 rtx 7 22222222 33333333 128",
        b"port 1.2.3.4:5 6.7.8.9:10 rtx 7 22222222 33333333 256",
        b"port 1.2.3.4:5 6.7.8.9:10 rtx 7 22222222 33333333 097",
        b"port 1.2.3.4:5 6.7.8.9:10 rtx 7 22222222 33333333",
        b"port 1.2.3.4:5 6.7.8.9:10 rtx 7 22222222 33333333 97 ",
        b"port 1.2.3.4:5 6.7.8.9:10 rtx 7 aAaAaAaA AaAaAaAa 97",
        b"port 1.2.3.4:5 6.7.8.9:10 rtx 4294967296 22222222 33333333 97",
        b"port 1.2.3.4:5 6.7.8.9:10 rtx 7 22222222 3333333 97",
    ];
    for line in outside {
        assert!(rt; read_port(line).is_err());
    }
    Ok(())
}
