// Tests of a track by rows of text. The lines of a row are processed one by one, and each line ends with the expected result.
mod real;
mod rows;
mod text;

ghost use Rattle.std.specs.Prelude.{◌≡◌, [], IfOk};

use crate::{Advance, Made, Track};
use real::REAL;
use rows::{LAYERED, PLAIN};
use sfu_base::{Kind, PacketBuf, SeqList};
use std::alloc::Global;
use std::process::Abort;
use std::test::Fail;
use text::{cut, frame_words, hex, number, put, say};

const SSRC: u32 = 0x11111111;

// A key descriptor with one target. In its structure, template 1 has distance 1 and link 1.
const KEY: [u8; 9] = [0xc0, 0x00, 0x01, 0x80, 0x00, 0x3a, 0x41, 0x01, 0x00];

// A payload with one OBU element, which is complete in the packet.
const PAYLOAD: [u8; 3] = [0x10, 0x30, 0x00];

// A packet with one header extension element: the descriptor, with id 4. The element has the one-byte form if the descriptor fits, otherwise the two-byte form.
fn packet(seq: u16, descriptor: &[u8], payload: &[u8]) -> PacketBuf {
    let mut out = PacketBuf::new();
    put(&mut out, &[0x90, 0x60]);
    put(&mut out, &seq.to_be_bytes());
    put(&mut out, &[0, 0, 0, 0, 0x11, 0x11, 0x11, 0x11]);
    let count = (descriptor.len() % 256) as u8;
    let short = count >= 1 && count <= 16;
    let size = usize::from(count) + if short { 1 } else { 2 };
    let words = size.div_ceil(4) as u8;
    if short {
        put(&mut out, &[0xbe, 0xde, 0, words, 0x40 + count - 1]);
    } else {
        put(&mut out, &[0x10, 0x00, 0, words, 4, count]);
    }
    put(&mut out, descriptor);
    for _ in size..4 * usize::from(words) {
        put(&mut out, &[0]);
    }
    put(&mut out, payload);
    out
}

// Writes the sequence numbers of the packets that the last step made.
fn say_packets(
    rt: &impl Abort,
    alloc: Global,
    track: &Track,
    said: &mut String,
) -> Result<(), Fail> {
    for place in 0..track.count() {
        let bytes = track.packet(place);
        assert!(rt; bytes.len() >= 4);
        let seq = u16::from_be_bytes([bytes[2], bytes[3]]);
        let word = format!(in alloc; "{seq}")?;
        say(said, word.as_str())?;
    }
    Ok(())
}

// Processes all waiting items, and returns their results as text.
fn drain(rt: &impl Abort, alloc: Global, track: &mut Track) -> Result<String, Fail>
    ensures { IfOk result (λ said. track.new.window.waiting ≡ []) }
{
    let mut said = String::new(alloc);
    loop {
        match track.advance() {
            Advance::Idle => {
                assert!(rt; track.count() == 0);
                return Ok(said);
            }
            Advance::Nothing => assert!(rt; track.count() == 0),
            Advance::Packet => say(&mut said, "packet")?,
            Advance::Frame => {
                let words = frame_words(rt, alloc, track.meaning())?;
                say(&mut said, words.as_str())?;
                say(&mut said, "of")?;
            }
        }
        say_packets(rt, alloc, track, &mut said)?;
    }
}

// Hands a packet to the track. Returns the refusal, or the results of all waiting items, as text.
fn arrive(
    rt: &impl Abort,
    alloc: Global,
    track: &mut Track,
    moment: u64,
    bytes: &[u8],
) -> Result<String, Fail>
    requires { track.old.window.waiting ≡ [] }
    ensures { IfOk result (λ said. track.new.window.waiting ≡ []) }
{
    assert!(rt; bytes.len() <= 2048);
    match track.arrive(moment, bytes) {
        Ok(()) => drain(rt, alloc, track),
        Err(refusal) => Ok(format!(in alloc; "{refusal:?}")?),
    }
}

// Processes a line, and returns its result.
fn work_off(rt: &impl Abort, alloc: Global, track: &mut Track, line: &[u8]) -> Result<String, Fail>
    requires { track.old.window.waiting ≡ [] }
    ensures { IfOk result (λ said. track.new.window.waiting ≡ []) }
{
    let mut words = line;
    let first = cut(&mut words, b' ');
    match first {
        b"tick" => {
            track.tick(number(&mut words).into());
            drain(rt, alloc, track)
        }
        b"missing" => {
            let mut names = SeqList::new();
            track.missing(&mut names);
            let mut said = String::new(alloc);
            for seq in names.numbers() {
                let word = format!(in alloc; "{seq}")?;
                say(&mut said, word.as_str())?;
            }
            Ok(said)
        }
        b"raw" => {
            let moment = number(&mut words).into();
            let bytes = hex(&mut words);
            arrive(rt, alloc, track, moment, bytes.bytes())
        }
        _ => {
            let mut moment = first;
            let moment = number(&mut moment).into();
            let seq = (number(&mut words) % 65536) as u16;
            let descriptor = hex(&mut words);
            let payload = hex(&mut words);
            let bytes = packet(seq, descriptor.bytes(), payload.bytes());
            arrive(rt, alloc, track, moment, bytes.bytes())
        }
    }
}

fn expect_row(
    rt: &impl Abort,
    alloc: Global,
    kind: Kind,
    name: &str,
    lines: &str,
) -> Result<(), Fail> {
    let mut track = Track::new(alloc, kind, SSRC, 100)?;
    let mut lines = lines.as_bytes();
    'lines: for _ in 0..12 {
        let mut line = cut(&mut lines, b'\n');
        let step = cut(&mut line, b'>');
        let said = work_off(rt, alloc, &mut track, step)?;
        let wanted = str::from_utf8(line.strip_prefix(b" ").unwrap_or(line))?;
        assert_eq!(rt; said.as_str(), wanted, "{name}");
        if lines.is_empty() {
            break 'lines;
        }
    }
    assert!(rt; lines.is_empty());
    Ok(())
}

#[test]
fn rows_make_what_the_rules_say(rt: HostRuntime) -> Result<(), Fail> {
    for (name, lines) in LAYERED {
        expect_row(&rt, rt.alloc(), Kind::Layered { id: 4 }, name, lines)?;
    }
    for (name, lines) in PLAIN {
        expect_row(&rt, rt.alloc(), Kind::Plain, name, lines)?;
    }
    Ok(())
}

// Sends a key frame and then a frame of `count` packets. Returns the result of the last packet.
fn frame_of(rt: &impl Abort, alloc: Global, count: u16) -> Result<String, Fail> {
    let mut track = Track::new(alloc, Kind::Layered { id: 4 }, SSRC, 0)?;
    let key = packet(0, &KEY, &PAYLOAD);
    let mut said = arrive(rt, alloc, &mut track, 0, key.bytes())?;
    for before in 0..count {
        let seq = before + 1;
        assert!(rt; seq == 1 || said.is_empty());
        let start = if seq == 1 { 0x80 } else { 0 };
        let end = if seq == count { 0x40 } else { 0 };
        let bytes = packet(seq, &[start + end + 1, 0, 2], &PAYLOAD);
        said = arrive(rt, alloc, &mut track, 0, bytes.bytes())?;
    }
    Ok(said)
}

#[test]
fn a_frame_has_at_most_512_packets(rt: HostRuntime) -> Result<(), Fail> {
    let alloc = rt.alloc();
    let mut wanted = format!(in alloc;
        "frame 2 start 1 epoch 1 mask 1 layer 0 0 dtis [2] refs [1] links [1] of"
    )?;
    for seq in 1..=512u16 {
        let word = format!(in alloc; "{seq}")?;
        say(&mut wanted, word.as_str())?;
    }
    assert_eq!(rt; frame_of(&rt, alloc, 512)?.as_str(), wanted.as_str());
    assert_eq!(rt; frame_of(&rt, alloc, 513)?.as_str(), "");
    Ok(())
}

const START: u8 = 0x80;

const END: u8 = 0x40;

fn has(descriptor: &PacketBuf, bit: u8) -> bool {
    descriptor
        .bytes()
        .first()
        .is_some_and(|first| first & bit != 0)
}

// The descriptor with its start and end bits replaced by `bit`.
fn edge(descriptor: &PacketBuf, bit: u8) -> PacketBuf {
    let mut out = PacketBuf::new();
    if let [first, rest @ ..] = descriptor.bytes() {
        put(&mut out, &[first & 0x3f | bit]);
        put(&mut out, rest);
    }
    out
}

// Makes the descriptors of a key frame and of the frame with the descriptor `own`, which may be the same frame. Adds descriptors so that each
// frame is complete. Returns the descriptors, and the index at which the frame with `own` begins.
fn frames_with(
    alloc: Global,
    key: &PacketBuf,
    own: &PacketBuf,
) -> Result<(Vec<PacketBuf>, usize), Fail> {
    let mut all = Vec::new(alloc);
    let mut first = 0;
    if own.bytes() != key.bytes() {
        all.push(edge(key, START))?;
        if own.bytes().get(1..3) != key.bytes().get(1..3) {
            all.push(edge(key, END))?;
            first = all.len();
            if !has(own, START) {
                all.push(edge(own, START))?;
            }
        }
    }
    all.push(edge(own, own.bytes().first().copied().unwrap_or(0) & 0xc0))?;
    if !has(own, END) {
        all.push(edge(own, END))?;
    }
    Ok((all, first))
}

// Sends packets with these descriptors to a new track, and returns the result of the last one.
fn made_of(rt: &impl Abort, alloc: Global, descriptors: &[PacketBuf]) -> Result<String, Fail> {
    let mut track = Track::new(alloc, Kind::Layered { id: 4 }, SSRC, 0)?;
    let mut said = String::new(alloc);
    for (seq, descriptor) in descriptors.iter().enumerate() {
        let bytes = packet((seq % 65536) as u16, descriptor.bytes(), &PAYLOAD);
        said = arrive(rt, alloc, &mut track, 0, bytes.bytes())?;
    }
    Ok(said)
}

#[test]
fn descriptors_of_a_browsers_encoder_make_the_frames_that_they_say(
    rt: HostRuntime,
) -> Result<(), Fail> {
    let alloc = rt.alloc();
    let mut lines = REAL.as_bytes();
    let mut key = PacketBuf::new();
    for _ in 0..117 {
        let mut line = cut(&mut lines, b'\n');
        let is_key = cut(&mut line, b' ') == b"key".as_slice();
        let own = hex(&mut line);
        if is_key {
            key = edge(&own, START);
        }
        let (all, first) = frames_with(alloc, &key, &own)?;
        let said = made_of(&rt, alloc, all.as_slice())?;
        let mut wanted = str::from_utf8(line)?.to_string(alloc)?;
        say(&mut wanted, "of")?;
        for seq in first..all.len() {
            let word = format!(in alloc; "{seq}")?;
            say(&mut wanted, word.as_str())?;
        }
        assert_eq!(rt; said.as_str(), wanted.as_str());
    }
    assert!(rt; lines.is_empty());
    Ok(())
}

#[test]
fn a_plain_track_hands_out_what_it_takes(rt: HostRuntime) -> Result<(), Fail> {
    let mut track = Track::new(rt.alloc(), Kind::Plain, 0x11111111, 0)?;
    assert!(rt; matches!(track.advance(), Advance::Idle));
    let bytes = [
        0x80, 0x60, 0, 1, 0, 0, 0, 0, 0x11, 0x11, 0x11, 0x11, 0xaa, 0xbb,
    ];
    assert_eq!(rt; track.arrive(0, &bytes), Ok(()));
    assert!(rt; matches!(track.advance(), Advance::Packet));
    assert!(rt; track.count() == 1);
    assert_eq!(rt; track.packet(0), bytes.as_slice());
    assert!(rt; matches!(track.step(), Made::Idle));
    assert!(rt; track.force().is_none());
    Ok(())
}

#[test]
fn a_layered_track_has_the_structure_of_its_key_start_and_takes_at_most_1500_bytes(
    rt: HostRuntime,
) -> Result<(), Fail> {
    let alloc = rt.alloc();
    let mut track = Track::new(alloc, Kind::Layered { id: 4 }, SSRC, 0)?;
    let said = arrive(&rt, alloc, &mut track, 0, &[0; 1501])?;
    assert_eq!(rt; said.as_str(), "TooBig { len: 1501 }");
    let said = arrive(&rt, alloc, &mut track, 0, &[0; 1500])?;
    assert_eq!(rt; said.as_str(), "Unreadable(Version)");
    assert!(rt; track.force().is_none());
    arrive(&rt, alloc, &mut track, 0, packet(0, &KEY, &PAYLOAD).bytes())?;
    assert_eq!(rt;
        track.force().map(|structure| structure.target_count()),
        Some(1)
    );
    Ok(())
}
