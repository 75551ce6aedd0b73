// Tables of records and lines. The records are the format's table, written by hand.
ghost use Rattle.std.specs.Prelude.{◌≡◌, true};
ghost use Rattle.script_texts.specs.Lines.{HasBytes};

use crate::{NoRecord, RecordReader, may_have_length, read_record, write_record};
use sfu_base::{Blob, Call, PacketBuf};
use sfu_script::{read_call, write_call};
use std::test::Fail;

// Lines of calls, each with its record. The numbers in them are 0 and the greatest of their type.
const RECORDS: [(&[u8], &[u8]); 31] = [
    (
        b"publish 1 plain 11111111 100",
        b"\x00\x0d\x01\x00\x00\x00\x01\x11\x11\x11\x11\x00\x00\x00\x64",
    ),
    (
        b"publish 0 plain 00000000 0",
        b"\x00\x0d\x01\x00\x00\x00\x00\x00\x00\x00\x00\x00\x00\x00\x00",
    ),
    (
        b"publish 4294967295 plain ffffffff 4294967295",
        b"\x00\x0d\x01\xff\xff\xff\xff\xff\xff\xff\xff\xff\xff\xff\xff",
    ),
    (
        b"publish 1 layered 11111111 100 4",
        b"\x00\x0e\x02\x00\x00\x00\x01\x11\x11\x11\x11\x00\x00\x00\x64\x04",
    ),
    (
        b"publish 4294967295 layered 0a0b0c0d 4294967295 255",
        b"\x00\x0e\x02\xff\xff\xff\xff\x0a\x0b\x0c\x0d\xff\xff\xff\xff\xff",
    ),
    (b"unpublish 3", b"\x00\x05\x03\x00\x00\x00\x03"),
    (b"unpublish 4294967295", b"\x00\x05\x03\xff\xff\xff\xff"),
    (
        b"packet 1 5 80",
        b"\x00\x0e\x04\x00\x00\x00\x01\x00\x00\x00\x00\x00\x00\x00\x05\x80",
    ),
    (
        b"packet 4294967295 18446744073709551615 abcdef",
        b"\x00\x10\x04\xff\xff\xff\xff\xff\xff\xff\xff\xff\xff\xff\xff\xab\xcd\xef",
    ),
    (
        b"tick 1 50",
        b"\x00\x0d\x05\x00\x00\x00\x01\x00\x00\x00\x00\x00\x00\x00\x32",
    ),
    (
        b"tick 4294967295 18446744073709551615",
        b"\x00\x0d\x05\xff\xff\xff\xff\xff\xff\xff\xff\xff\xff\xff\xff",
    ),
    (
        b"tick 16909060 72623859790382856",
        b"\x00\x0d\x05\x01\x02\x03\x04\x01\x02\x03\x04\x05\x06\x07\x08",
    ),
    (
        b"join 1 2 22222222 7 3 4",
        b"\x00\x11\x06\x00\x00\x00\x01\x00\x00\x00\x02\x22\x22\x22\x22\x00\x07\x03\x04",
    ),
    (
        b"join 0 0 00000000 0 0 0",
        b"\x00\x11\x06\x00\x00\x00\x00\x00\x00\x00\x00\x00\x00\x00\x00\x00\x00\x00\x00",
    ),
    (
        b"join 4294967295 4294967295 ffffffff 65535 255 255",
        b"\x00\x11\x06\xff\xff\xff\xff\xff\xff\xff\xff\xff\xff\xff\xff\xff\xff\xff\xff",
    ),
    (b"leave 2", b"\x00\x05\x07\x00\x00\x00\x02"),
    (b"leave 4294967295", b"\x00\x05\x07\xff\xff\xff\xff"),
    (b"aim 1 2 3", b"\x00\x07\x08\x00\x00\x00\x01\x02\x03"),
    (
        b"aim 4294967295 255 255",
        b"\x00\x07\x08\xff\xff\xff\xff\xff\xff",
    ),
    (b"take 1", b"\x00\x05\x09\x00\x00\x00\x01"),
    (b"take 4294967295", b"\x00\x05\x09\xff\xff\xff\xff"),
    (b"resend 1 1000", b"\x00\x07\x0a\x00\x00\x00\x01\x03\xe8"),
    (
        b"resend 4294967295 65535",
        b"\x00\x07\x0a\xff\xff\xff\xff\xff\xff",
    ),
    (b"missing 1", b"\x00\x05\x0b\x00\x00\x00\x01"),
    (b"missing 4294967295", b"\x00\x05\x0b\xff\xff\xff\xff"),
    (b"key 1", b"\x00\x05\x0c\x00\x00\x00\x01"),
    (b"key 4294967295", b"\x00\x05\x0c\xff\xff\xff\xff"),
    (b"plead 1", b"\x00\x05\x0d\x00\x00\x00\x01"),
    (b"plead 4294967295", b"\x00\x05\x0d\xff\xff\xff\xff"),
    (
        b"why 1 7",
        b"\x00\x0d\x0e\x00\x00\x00\x01\x00\x00\x00\x00\x00\x00\x00\x07",
    ),
    (
        b"why 4294967295 18446744073709551615",
        b"\x00\x0d\x0e\xff\xff\xff\xff\xff\xff\xff\xff\xff\xff\xff\xff",
    ),
];

// Returns whether `write_call` and `write_record` may be called with this call.
fn has_bytes(call: &Call) -> bool
    ensures { result ≡ true → HasBytes call.now }
{
    match call {
        Call::Packet { bytes, .. } => !bytes.bytes().is_empty(),
        _ => true,
    }
}

#[test]
fn lines_are_converted_to_records_and_back(rt: HostRuntime) -> Result<(), Fail> {
    let mut record = Blob::new(rt.alloc());
    let mut line = Blob::new(rt.alloc());
    for (text, bytes) in RECORDS.iter() {
        let call = read_call(text)?;
        assert!(rt; has_bytes(&call));
        record.clear();
        write_record(&call, &mut record)?;
        assert_eq!(rt; record.bytes(), *bytes);
        let call = read_record(&bytes[2..])?;
        assert!(rt; has_bytes(&call));
        line.clear();
        write_call(&call, &mut line)?;
        assert_eq!(rt; line.bytes(), *text);
    }
    Ok(())
}

// The table in another order. Before each record the reader reads the longest packet, and a body that isn't one of a call.
#[test]
fn a_reader_keeps_nothing_of_the_record_before(rt: HostRuntime) -> Result<(), Fail> {
    let mut longest = [0xa5; 2061];
    longest[0] = 4;
    let mut reader = RecordReader::new();
    let mut record = Blob::new(rt.alloc());
    for i in 0..RECORDS.len() {
        let (_, bytes) = RECORDS[i * 12 % RECORDS.len()];
        assert!(rt; reader.read(&longest).is_ok());
        assert!(rt; reader.read(&[15, 0, 0, 0, 1]).is_err());
        let [_, _, body @ ..] = bytes else {
            return Err(Fail::from("no length"));
        };
        let call = reader.read(body)?;
        assert!(rt; has_bytes(call));
        record.clear();
        write_record(call, &mut record)?;
        assert_eq!(rt; record.bytes(), bytes);
    }
    Ok(())
}

// Each kind with the least and the greatest length of its body.
const LENGTHS: [(u8, usize, usize); 14] = [
    (1, 13, 13),
    (2, 14, 14),
    (3, 5, 5),
    (4, 14, 2061),
    (5, 13, 13),
    (6, 17, 17),
    (7, 5, 5),
    (8, 7, 7),
    (9, 5, 5),
    (10, 7, 7),
    (11, 5, 5),
    (12, 5, 5),
    (13, 5, 5),
    (14, 13, 13),
];

#[test]
fn a_body_of_another_length_is_no_record(rt: HostRuntime) -> Result<(), Fail> {
    let zeros = [0; 2064];
    for (kind, least, most) in LENGTHS {
        for count in 1..2064 {
            let mut body = zeros;
            body[0] = kind;
            let here = count >= least && count <= most;
            assert_eq!(rt; read_record(&body[..count]).is_ok(), here, "{kind} {count}");
            assert_eq!(rt; may_have_length(kind, count), here, "{kind} {count}");
        }
    }
    for kind in [0, 15, 16, 255] {
        for count in 1..20 {
            let mut body = zeros;
            body[0] = kind;
            assert!(rt; read_record(&body[..count]).is_err(), "{kind} {count}");
            assert!(rt; !may_have_length(kind, count), "{kind} {count}");
        }
    }
    assert_eq!(rt; read_record(b"").err(), Some(NoRecord));
    Ok(())
}

#[test]
fn a_packet_of_2048_bytes_is_written_and_read(rt: HostRuntime) -> Result<(), Fail> {
    let mut sent = [0xa5; 2048];
    sent[0] = 0x80;
    sent[2047] = 0x01;
    let mut bytes = PacketBuf::new();
    bytes.fill(&sent);
    let (track, moment) = (1, 2);
    let mut record = Blob::new(rt.alloc());
    let call = Call::Packet {
        track,
        moment,
        bytes,
    };
    assert!(rt; has_bytes(&call));
    write_record(&call, &mut record)?;
    let record = record.bytes();
    assert_eq!(rt; record.len(), 2063);
    let front = b"\x08\x0d\x04\x00\x00\x00\x01\x00\x00\x00\x00\x00\x00\x00\x02\x80";
    assert_eq!(rt; &record[..16], front.as_slice());
    let Call::Packet {
        track,
        moment,
        bytes,
    } = read_record(&record[2..])?
    else {
        panic!(rt; "another call")
    };
    assert_eq!(rt; (track, moment), (1, 2));
    assert_eq!(rt; bytes.bytes(), sent.as_slice());
    Ok(())
}

#[test]
fn a_call_becomes_a_record(rt: HostRuntime) -> Result<(), Fail> {
    let mut script = Blob::new(rt.alloc());
    write_record(&Call::Take { subscriber: 1 }, &mut script)?;
    assert_eq!(rt; script.bytes().len(), 7);
    let (length, body) = script.bytes().split_at(2); // the length precedes the body
    assert_eq!(rt; length, b"\x00\x05".as_slice());
    assert_eq!(rt; body, b"\x09\x00\x00\x00\x01".as_slice());
    assert!(rt; may_have_length(body[0], body.len()));
    assert!(rt; matches!(read_record(body)?, Call::Take { subscriber: 1 }));
    Ok(())
}
