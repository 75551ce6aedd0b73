// The IVF file of a recording, to which frames are appended.
ghost use Rattle.std.specs.Prelude.{◌≡◌, ◌+◌, ◌%◌, ◌^◌, ◌<◌, ◌≤◌, ◌++◌, length, ℕ, List, IfOk, OnOk, Some, [], true};
ghost use Rattle.std.specs.Vec.{vec_capacity, vec_len};
ghost use Rattle.std.specs.Int.{to_le_bytes, w32, w64};
ghost use Rattle.ivf_recorder.specs.Units.{delimiter};

use crate::frame::OpenFrame;
use sfu_base::NoMemory;
use std::alloc::Global;

/// The largest length of a unit with more than one frame, in bytes. The unit's header isn't counted.
const MOST_UNIT: usize = 16_777_216;

/// The offset in the file header, in bytes, of the width (two bytes). The height (two bytes) follows the width.
const SIZE_AT: usize = 12;

/// The offset in the file header, in bytes, of the field with the number of units (four bytes).
const COUNT_AT: usize = 24;

/// The length of a unit's header in bytes: size (4) and time (8).
const UNIT_HEADER: usize = 12;

/// The number of bytes of a new unit before its first frame: size (4), time (8), temporal delimiter (2).
const UNIT_FRONT: usize = 14;

/// The file header. The width, the height and the number of units are 0.
const HEADER: [u8; 32] = [
    b'D', b'K', b'I', b'F', 0, 0, 32, 0, b'A', b'V', b'0', b'1', 0, 0, 0, 0, 0x90, 0x5f, 0x01, 0,
    1, 0, 0, 0, 0, 0, 0, 0, 0, 0, 0, 0,
];

/// The outcome of appending a frame to the newest unit.
#[derive(Clone, Copy)]
pub enum Growth {
    Grown,
    /// The unit would get too long. Nothing changed.
    TooLong,
    /// An element of the frame isn't an OBU. Nothing changed.
    Unsound,
}

/// An IVF file with the frames recorded so far.
#[derive(Drop)]
pub struct IvfFile {
    pub bytes: Vec<u8>,
    /// Whether the file has a unit.
    pub begun: bool,
    /// The offset in the file at which the newest unit begins.
    pub at: usize,
    /// The RTP timestamp of the newest unit.
    pub timestamp: u32,
    /// The time of the newest unit, in ticks of the RTP clock since the first unit.
    pub time: u64,
    /// How many units there are, modulo 2^32.
    pub count: u32,
    ghost header: { 32 ≤ vec_len bytes },
    ghost unit: { at + 12 ≤ vec_len bytes },
}

// Overwrites the bytes from offset `at` on with `new`.
fn put_at(bytes: &mut Vec<u8>, at: usize, new: &[u8])
    requires within { at + length new.now ≤ vec_len bytes.old }
    ensures put { (front old rest : List ℕ) → bytes.old.items ≡ front ++ (old ++ rest) → length front ≡ at → length old ≡ length new.now
        → bytes.new.items ≡ front ++ (new.now ++ rest) }
    ensures len { vec_len bytes.new ≡ vec_len bytes.old }
{
    bytes[at..at + new.len()].copy_from_slice(new);
}

// The bytes of a unit before its first frame: size (0 for now), time and a temporal delimiter.
fn unit_front(time: u64) -> [u8; UNIT_FRONT]
    ensures { result ≡ to_le_bytes w32 0 ++ (to_le_bytes w64 time ++ delimiter) }
{
    let [a, b, c, d, e, f, g, h] = time.to_le_bytes();
    [0, 0, 0, 0, a, b, c, d, e, f, g, h, 0x12, 0]
}

impl IvfFile {
    ghost use Rattle.ivf_recorder.specs.Added.{Adds, BeginsUnit, Grows, HasSameUnit, IsNextTime, SetsUnit, SetsUnitSize, content, timestamp_in};
    ghost use Rattle.ivf_recorder.specs.declared.file.Growth.TheVariants as Growth;
    ghost use Rattle.ivf_recorder.specs.Files.{IsFileOf, IsSameBut};
    ghost use Rattle.ivf_recorder.specs.Laid.{most_bytes, segments_in};
    ghost use Rattle.ivf_recorder.specs.Obus.{Obu, obus_in};
    ghost use Rattle.ivf_recorder.specs.Units.{RecordedFrame, Size, no_size};

    /// A file without frames. Returns `NoMemory` if memory runs out.
    pub fn new(alloc: Global) -> Result<IvfFile, NoMemory>
        ensures { IfOk result (λ file. IsFileOf file no_size []) }
    {
        Ok(IvfFile {
            bytes: HEADER.to_vec(alloc).map_err(|_| NoMemory)?,
            begun: false,
            at: 0,
            timestamp: 0,
            time: 0,
            count: 0,
        })
    }

    /// Reserves memory for one more frame. All OBUs of the frame together have at most `most` bytes. The contents of the file don't change.
    pub fn reserve(&mut self, most: usize) -> Result<(), NoMemory>
        requires { UNIT_FRONT + most < 2 ^ 64 }
        ensures ok { OnOk result (vec_len self.new.bytes + (UNIT_FRONT + most) ≤ vec_capacity self.new.bytes) }
        ensures same { IsSameBut self.old self.new }
    {
        match self.bytes.reserve(UNIT_FRONT + most) {
            Ok(()) => Ok(()),
            Err(_) => Err(NoMemory),
        }
    }

    /// Appends a frame. Memory for the frame must be reserved before this call. If an element of the frame isn't an OBU, returns false and changes
    /// nothing.
    pub fn add(&mut self, frame: &OpenFrame) -> bool
        requires capacity { vec_len self.old.bytes + (UNIT_FRONT + most_bytes frame.now) ≤ vec_capacity self.old.bytes }
        ensures { (size : Size) (contents : List RecordedFrame) → IsFileOf self.old size contents
            → Adds result frame.now.timestamp (obus_in (segments_in frame.now)) size contents self.new }
    {
        let timestamp = frame.timestamp.unwrap_or(0);
        if !self.begun || self.timestamp != timestamp {
            return self.add_apart(timestamp, frame);
        }
        match self.grow(frame) {
            Growth::Grown => true,
            Growth::TooLong => self.add_apart(timestamp, frame),
            Growth::Unsound => false,
        }
    }

    // Appends a frame to the newest unit, which must have the frame's timestamp.
    fn grow(&mut self, frame: &OpenFrame) -> Growth
        requires capacity { vec_len self.old.bytes + most_bytes frame.now ≤ vec_capacity self.old.bytes }
        requires begun { self.old.begun ≡ true }
        requires timestamp { timestamp_in frame.now.timestamp ≡ self.old.timestamp }
        ensures grows { (size : Size) (contents : List RecordedFrame) → IsFileOf self.old size contents
            → Grows result frame.now.timestamp (obus_in (segments_in frame.now)) size contents self.new }
        ensures capacity { result ≡ Growth.TooLong → (vec_len self.new.bytes ≡ vec_len self.old.bytes)
            × (vec_capacity self.old.bytes ≤ vec_capacity self.new.bytes) }
    {
        let start = self.bytes.len();
        if !frame.lay(&[], &mut self.bytes) {
            return Growth::Unsound;
        }
        if self.bytes.len() - self.at - UNIT_HEADER > MOST_UNIT {
            self.bytes.truncate(start);
            return Growth::TooLong;
        }
        self.set_unit_size();
        Growth::Grown
    }

    // Appends a frame as a new unit. If an element of the frame isn't an OBU, returns false.
    fn add_apart(&mut self, timestamp: u32, frame: &OpenFrame) -> bool
        requires capacity { vec_len self.old.bytes + (UNIT_FRONT + most_bytes frame.now) ≤ vec_capacity self.old.bytes }
        requires timestamp { timestamp_in frame.now.timestamp ≡ timestamp }
        ensures { (size : Size) (contents : List RecordedFrame) → IsFileOf self.old size contents
            → ((obus : List Obu) → obus_in (segments_in frame.now) ≡ Some obus → BeginsUnit contents (content frame.now.timestamp obus))
            → Adds result frame.now.timestamp (obus_in (segments_in frame.now)) size contents self.new }
    {
        let start = self.bytes.len();
        let time = self.next_time(timestamp);
        if !frame.lay(&unit_front(time), &mut self.bytes) {
            return false;
        }
        self.begin(start, timestamp, time);
        true
    }

    // Writes the size of the newest unit into the unit's header.
    fn set_unit_size(&mut self)
        ensures updated { SetsUnitSize self.old.at self.old.bytes.items self.new.bytes.items }
        ensures same { HasSameUnit self.old self.new }
        ensures len { vec_len self.new.bytes ≡ vec_len self.old.bytes }
    {
        let size = self.bytes.len() - self.at - UNIT_HEADER;
        put_at(
            &mut self.bytes,
            self.at,
            &((size % 0x1_0000_0000) as u32).to_le_bytes(),
        );
    }

    // The time of the next unit, which has this RTP timestamp, in ticks since the first unit.
    fn next_time(&self, timestamp: u32) -> u64
        ensures { (size : Size) (contents : List RecordedFrame) → IsFileOf self.now size contents → IsNextTime contents timestamp result }
    {
        if !self.begun {
            return 0;
        }
        let ticks = timestamp.wrapping_sub(self.timestamp);
        self.time.wrapping_add(u64::from(ticks))
    }

    // Makes the unit at offset `at` the newest one, and writes its size and the new number of units.
    fn begin(&mut self, at: usize, timestamp: u32, time: u64)
        requires within { at + UNIT_FRONT ≤ vec_len self.old.bytes }
        ensures updated { SetsUnit at self.old.count self.old.bytes.items self.new.bytes.items }
        ensures begun { self.new.begun ≡ true }
        ensures at { self.new.at ≡ at }
        ensures timestamp { self.new.timestamp ≡ timestamp }
        ensures time { self.new.time ≡ time }
        ensures count { self.new.count ≡ (self.old.count + 1) % 2 ^ 32 }
    {
        self.begun = true;
        self.at = at;
        self.timestamp = timestamp;
        self.time = time;
        self.set_unit_size();
        self.count = self.count.wrapping_add(1);
        put_at(&mut self.bytes, COUNT_AT, &self.count.to_le_bytes());
    }

    /// Writes the width modulo 65,536 and the height modulo 65,536 into the header, in pixels.
    pub fn set_size(&mut self, width: u32, height: u32)
        ensures updated { (size : Size) (contents : List RecordedFrame) → IsFileOf self.old size contents
            → IsFileOf self.new (record { width = width; height = height }) contents }
    {
        put_at(
            &mut self.bytes,
            SIZE_AT,
            &((width % 65_536) as u16).to_le_bytes(),
        );
        put_at(
            &mut self.bytes,
            SIZE_AT + 2,
            &((height % 65_536) as u16).to_le_bytes(),
        );
    }
}
