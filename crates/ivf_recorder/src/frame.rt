// The elements of the unfinished frame.
ghost use Rattle.std.specs.Prelude.{◌≡◌, ◌+◌, ◌-◌, ◌^◌, ◌*◌, ◌≤◌, ◌<◌, ◌++◌, ◌∷◌, [], None, Some, OnErr, OnOk, length, take, true, ℕ, List};
ghost use Rattle.std.specs.Vec.{vec_capacity, vec_len};
ghost use Rattle.ivf_recorder.specs.Segments.{are_cuts};

use crate::obu::{MORE_BYTES, append_obu, append_reserved};
use av1_payload::PayloadElements;
use sfu_base::NoMemory;
use std::alloc::Global;

/// The elements in the packets of an unfinished frame. `bytes` is the concatenation of the elements. `cuts` has the offset in `bytes` at which each
/// element begins. Bytes before the first offset belong to an element that began before the frame. A frame that the strict receiver accepts has no such
/// bytes.
#[derive(Drop)]
pub struct OpenFrame {
    /// The RTP timestamp of the frame's first packet, or `None` before the first packet.
    pub timestamp: Option<u32>,
    pub bytes: Vec<u8>,
    pub cuts: Vec<usize>,
    ghost within: { are_cuts 0 cuts.items (vec_len bytes) ≡ true },
}

/// An earlier state of an unfinished frame, to which the frame can return: its timestamp, and the lengths of its vectors.
#[derive(Clone, Copy)]
pub struct Mark {
    pub timestamp: Option<u32>,
    pub bytes: usize,
    pub cuts: usize,
}

impl OpenFrame {
    ghost use Rattle.rtp_packet.specs.Faults.{first_fault};
    ghost use Rattle.ivf_recorder.specs.Elements.{add_elements, no_elements, onto_last};
    ghost use Rattle.ivf_recorder.specs.Laid.{Lays, LaysOr, most_bytes, segments_in};
    ghost use Rattle.ivf_recorder.specs.Obus.{obus_in};
    ghost use Rattle.ivf_recorder.specs.Taken.{Grown, HasTaken, IsReadable, with_element};

    /// A frame without packets. Allocates no memory.
    pub fn new(alloc: Global) -> OpenFrame
        ensures timestamp { result.timestamp ≡ None }
        ensures elements { segments_in result ≡ no_elements }
    {
        OpenFrame {
            timestamp: None,
            bytes: Vec::new(alloc),
            cuts: Vec::new(alloc),
        }
    }

    /// Appends the elements of the next packet. Changes nothing if the packet isn't RTP, or if its payload isn't well formed. After `NoMemory`, some of
    /// the elements may have been appended.
    pub fn take(&mut self, packet: &[u8]) -> Result<(), NoMemory>
        ensures taken { OnOk result (IsReadable packet.now → HasTaken self.old self.new packet.now) }
        ensures grown { Grown self.old self.new }
    {
        let Ok(rtp) = rtp_packet::read(packet) else {
            return Ok(());
        };
        let Ok(payload) = av1_payload::read(rtp.payload) else {
            return Ok(());
        };
        self.append(payload.continues, payload.elements())?;
        if self.timestamp.is_none() {
            self.timestamp = Some(rtp.timestamp);
        }
        Ok(())
    }

    // Appends the elements of a packet. If `continues` is true, the packet's first element continues the last element so far.
    fn append(&mut self, continues: bool, elements: PayloadElements) -> Result<(), NoMemory>
        ensures added { OnOk result (segments_in self.new ≡ add_elements continues (segments_in self.old) elements.entry) }
        ensures grown { Grown self.old self.new }
        ensures timestamp { self.new.timestamp ≡ self.old.timestamp }
    {
        let mut left = elements;
        let mut goes_on = continues;
        while let Some(element) = left.next() {
            self.add(goes_on, element)?;
            goes_on = false;
        }
        Ok(())
    }

    // Appends an element. If `goes_on` is true, appends its bytes to the last element instead.
    fn add(&mut self, goes_on: bool, element: &[u8]) -> Result<(), NoMemory>
        ensures added { OnOk result (segments_in self.new ≡ with_element goes_on (segments_in self.old) element.now) }
        ensures grown { Grown self.old self.new }
        ensures timestamp { self.new.timestamp ≡ self.old.timestamp }
    {
        if goes_on {
            return self.go_on(element);
        }
        self.begin()?;
        self.go_on(element)
    }

    // Begins an element that has no bytes yet.
    fn begin(&mut self) -> Result<(), NoMemory>
        ensures begun { OnOk result (segments_in self.new ≡ segments_in self.old ++ [] ∷ []) }
        ensures grown { Grown self.old self.new }
        ensures timestamp { self.new.timestamp ≡ self.old.timestamp }
    {
        match self.cuts.push(self.bytes.len()) {
            Ok(()) => Ok(()),
            Err(_) => Err(NoMemory),
        }
    }

    // Appends bytes to the last element.
    fn go_on(&mut self, bytes: &[u8]) -> Result<(), NoMemory>
        ensures more { OnOk result (segments_in self.new ≡ onto_last (segments_in self.old) bytes.now) }
        ensures grown { Grown self.old self.new }
        ensures timestamp { self.new.timestamp ≡ self.old.timestamp }
    {
        match self.bytes.extend_from_slice(bytes) {
            Ok(()) => Ok(()),
            Err(_) => Err(NoMemory),
        }
    }

    /// Returns the current state, for [`OpenFrame::back_to`].
    pub fn mark(&self) -> Mark
        ensures timestamp { result.timestamp ≡ self.now.timestamp }
        ensures bytes { result.bytes ≡ vec_len self.now.bytes }
        ensures cuts { result.cuts ≡ vec_len self.now.cuts }
    {
        Mark {
            timestamp: self.timestamp,
            bytes: self.bytes.len(),
            cuts: self.cuts.len(),
        }
    }

    /// Restores the state that `mark` describes: removes everything that was appended since then.
    pub fn back_to(&mut self, mark: Mark)
        requires within { are_cuts 0 (take mark.cuts self.old.cuts.items) mark.bytes ≡ true }
        requires bytes { mark.bytes ≤ vec_len self.old.bytes }
        ensures timestamp { self.new.timestamp ≡ mark.timestamp }
        ensures bytes { self.new.bytes.items ≡ take mark.bytes self.old.bytes.items }
        ensures cuts { self.new.cuts.items ≡ take mark.cuts self.old.cuts.items }
    {
        self.timestamp = mark.timestamp;
        self.cuts.truncate(mark.cuts);
        self.bytes.truncate(mark.bytes);
    }

    /// Removes all elements. The next frame can then be gathered.
    pub fn clear(&mut self)
        ensures timestamp { self.new.timestamp ≡ None }
        ensures elements { segments_in self.new ≡ no_elements }
    {
        self.timestamp = None;
        self.cuts.clear();
        self.bytes.clear();
    }

    /// An upper bound for the total length of the frame's OBUs in bytes, size fields included.
    pub fn most_bytes(&self) -> usize
        ensures most { result ≡ most_bytes self.now }
        ensures small { result < 2 ^ 64 - 2 ^ 32 }
    {
        // Slices are used here because they are known to have fewer than 2^63 bytes.
        let bytes = self.bytes.as_slice();
        let cuts = self.cuts.as_slice();
        bytes.len() + (cuts.len() + 1) * MORE_BYTES
    }

    // Appends the frame's OBUs. Stops, and returns false, at the first element that isn't an OBU.
    fn lay_all(&self, out: &mut Vec<u8>) -> bool
        requires capacity { vec_len out.old + most_bytes self.now ≤ vec_capacity out.old }
        ensures lays { LaysOr result (obus_in (segments_in self.now)) out.old.items out.new.items }
        ensures grown { vec_len out.old ≤ vec_len out.new }
        ensures most { vec_len out.new ≤ vec_len out.old + most_bytes self.now }
        ensures capacity { vec_capacity out.old ≤ vec_capacity out.new }
    {
        let mut left = self.bytes.as_slice();
        let mut from = 0;
        for cut in &self.cuts {
            let (element, others) = left.split_at(*cut - from);
            if !append_obu(element, out) {
                return false;
            }
            left = others;
            from = *cut;
        }
        append_obu(left, out)
    }

    /// Appends `head`, and then the frame's OBUs, to `out`. `out` must have capacity for both. If an element isn't an OBU, returns false and appends
    /// nothing.
    pub fn lay(&self, head: &[u8], out: &mut Vec<u8>) -> bool
        requires capacity { vec_len out.old + length head.now + most_bytes self.now ≤ vec_capacity out.old }
        ensures lays { Lays result head.now (obus_in (segments_in self.now)) out.old.items out.new.items }
        ensures grown { vec_len out.old ≤ vec_len out.new }
        ensures head { result ≡ true → vec_len out.old + length head.now ≤ vec_len out.new }
        ensures most { vec_len out.new ≤ vec_len out.old + length head.now + most_bytes self.now }
        ensures capacity { vec_capacity out.old ≤ vec_capacity out.new }
    {
        let start = out.len();
        append_reserved(head, out);
        if !self.lay_all(out) {
            out.truncate(start);
            return false;
        }
        true
    }
}
