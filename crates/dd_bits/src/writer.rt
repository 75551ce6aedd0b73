ghost use Rattle.std.specs.Prelude.{◌≡◌, ◌<◌, ◌≤◌, ◌+◌, ◌*◌, ◌-◌, ◌/◌, ◌%◌, ◌^◌, [], ◌++◌, length, take, slice_index, OnErr};

use crate::digits::{byte_with, digit_count, digits_at, short_form_count, with_digits};
use crate::reader::BitReader;
use thiserror::Error;

/// The written bits would need more than 2,040 bytes.
#[derive(Clone, Copy, Debug, PartialEq, Eq, Error)]
#[error("the bits would pass 2,040 bytes")]
pub struct NoRoom;

/// The capacity of a writer, in bytes.
const MOST: usize = 2040;

/// A buffer of at most 2,040 bytes, to which bits are appended. The highest bit of each byte is written first.
#[derive(Clone, Copy, Debug)]
pub struct BitWriter {
    bytes: [u8; MOST],
    /// How many bytes are full.
    len: usize,
    /// How many bits, 0 to 7, have been written to the byte after the full bytes. `pending` holds these bits as a number.
    used: u8,
    pending: u32,
    ghost whole: { length bytes ≡ 2040 },
    ghost in_byte: { used < 8 },
    ghost within: { 8 * len + used ≤ 16320 },
    ghost small: { pending < 2 ^ used },
    ghost shown: { 0 < used → slice_index bytes len ≡ pending * 2 ^ (8 - used) },
}

impl BitWriter {
    ghost use Rattle.dd_bits.specs.Bits.{bits_of};
    ghost use Rattle.dd_bits.specs.Numbers.{non_symmetric_bits};
    ghost use Rattle.dd_bits.specs.Reader.{bits_left, bits_between};
    ghost use Rattle.dd_bits.specs.Writer.{capacity, written, IsPadded, Puts};

    /// Returns an empty writer.
    pub fn new() -> BitWriter
        ensures { written result ≡ [] }
    {
        BitWriter {
            bytes: [0; MOST],
            len: 0,
            used: 0,
            pending: 0,
        }
    }

    /// Removes all bits. Reusing a writer costs less than making a new one, because the bytes aren't cleared.
    pub fn clear(&mut self)
        ensures { written self.new ≡ [] }
    {
        self.len = 0;
        self.used = 0;
        self.pending = 0;
    }

    /// Appends an f(n) field: `value` in n bits. Returns `NoRoom` and leaves the writer unchanged if the written bits would then need more than
    /// 2,040 bytes.
    pub fn put(&mut self, n: u8, value: u32) -> Result<(), NoRoom>
        requires { value < 2 ^ n }
        ensures put { Puts result self.old self.new (bits_of n value) }
        ensures unchanged { OnErr result (self.new ≡ self.old) }
        ensures within { length (written self.new) ≤ capacity }
    {
        if MOST * 8 < self.len * 8 + self.used as usize + n as usize {
            return Err(NoRoom);
        }
        self.put_bits(n, value);
        Ok(())
    }

    /// Appends an ns(n) field: `value`, which is below n. Returns `NoRoom` and leaves the writer unchanged if the written bits would then need more
    /// than 2,040 bytes.
    pub fn put_ns(&mut self, n: u32, value: u32) -> Result<(), NoRoom>
        requires { value < n }
        ensures put { Puts result self.old self.new (non_symmetric_bits n value) }
        ensures unchanged { OnErr result (self.new ≡ self.old) }
        ensures within { length (written self.new) ≤ capacity }
    {
        let digits = digit_count(n);
        let short_forms = short_form_count(n);
        if value < short_forms {
            self.put(digits - 1, value)
        } else {
            self.put(digits, value + short_forms)
        }
    }

    /// Appends bits that a reader has read. `from` is a copy of the reader before it read these bits, and `to` is a copy after it read them.
    /// Returns `NoRoom` and leaves the writer unchanged if the written bits would then need more than 2,040 bytes.
    pub fn put_read(&mut self, from: BitReader<'_>, to: BitReader<'_>) -> Result<(), NoRoom>
        ensures put { Puts result self.old self.new (bits_between from.entry to.entry) }
        ensures unchanged { OnErr result (self.new ≡ self.old) }
        ensures within { length (written self.new) ≤ capacity }
    {
        let count = from.count().saturating_sub(to.count());
        let free = MOST * 8 - (self.len * 8 + self.used as usize);
        if count > free as u128 {
            return Err(NoRoom);
        }
        self.put_front(from, count as usize);
        Ok(())
    }

    /// Returns the written bits as bytes. The last byte is padded with zero bits.
    pub fn bytes(&self) -> &[u8]
        ensures { IsPadded (written self.now) result.now }
    {
        if self.used == 0 {
            &self.bytes[..self.len]
        } else {
            &self.bytes[..self.len + 1]
        }
    }

    /// Appends the next `count` bits of a reader.
    fn put_front(&mut self, from: BitReader<'_>, count: usize)
        requires enough { count ≤ length (bits_left from) }
        requires fit { length (written self.old) + count ≤ capacity }
        ensures { written self.new ≡ written self.old ++ take count (bits_left from.entry) }
    {
        let mut bits = from;
        let mut missing = count;
        while missing > 0 {
            let n = missing.min(32) as u8;
            missing -= n as usize;
            let number = bits.take_bits(n);
            self.put_bits(n, number);
        }
    }

    /// Appends the lowest n bits of `value`, byte by byte. Each byte gets as many bits as still fit into it.
    fn put_bits(&mut self, n: u8, value: u32)
        requires { length (written self.old) + n ≤ capacity }
        ensures { written self.new ≡ written self.old ++ bits_of n value }
    {
        let mut missing = n;
        while missing > 0 {
            let count = missing.min(8 - self.used);
            missing -= count;
            self.put_in_byte(count, digits_at(value, missing, count));
        }
    }

    /// Appends the lowest `count` bits of `value`. All of them fit into the byte after the full bytes.
    fn put_in_byte(&mut self, count: u8, value: u32)
        requires some { 1 ≤ count }
        requires in_byte { self.old.used + count ≤ 8 }
        requires small { value < 2 ^ count }
        requires capacity { length (written self.old) + count ≤ capacity }
        ensures { written self.new ≡ written self.old ++ bits_of count value }
    {
        let used = self.used + count;
        let pending = with_digits(self.pending, count, value);
        self.bytes[self.len] = byte_with(pending, used);
        if used == 8 {
            self.len += 1;
            self.used = 0;
            self.pending = 0;
        } else {
            self.used = used;
            self.pending = pending;
        }
    }
}

impl Default for BitWriter {
    ghost use Rattle.std.specs.Prelude.{◌≡◌, []};
    ghost use Rattle.dd_bits.specs.Writer.{written};

    ghost is_default = { λ w. written w ≡ [] };

    fn default() -> BitWriter {
        BitWriter::new()
    }
}
