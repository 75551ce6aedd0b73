ghost use Rattle.std.specs.Prelude.{◌≡◌, ◌<◌, ◌≤◌, ◌+◌, ◌^◌, length, take, drop, min, Some, None, IfOk, OnErr};

use crate::digits::{digit_count, digits_at, short_form_count, with_digits};
use thiserror::Error;

/// Fewer bits are left than the value needs.
#[derive(Clone, Copy, Debug, PartialEq, Eq, Error)]
#[error("fewer bits are left than the value needs")]
pub struct Short;

/// The remaining bits of a slice. The highest bit of each byte is read first.
#[derive(Clone, Copy, Debug)]
pub struct BitReader<'a> {
    /// The remaining bytes. The next bit is in the first of them.
    rest: &'a [u8],
    /// How many bits of the first remaining byte have been read already.
    used: u8,
    ghost in_byte: { used < 8 },
}

impl<'a> BitReader<'a> {
    ghost use Rattle.dd_bits.specs.Bits.{bits_of_bytes, value};
    ghost use Rattle.dd_bits.specs.Numbers.{fixed, non_symmetric};
    ghost use Rattle.dd_bits.specs.Reader.{bits_left};
    ghost use Rattle.dd_bits.specs.Sequences.{Gives, fixed_or, non_symmetric_or};

    /// Returns a reader of all bits of `bytes`.
    pub fn new(bytes: &'a [u8]) -> BitReader<'a>
        ensures { bits_left result ≡ bits_of_bytes bytes.now }
    {
        BitReader {
            rest: bytes,
            used: 0,
        }
    }

    /// Returns how many bits are left, capped at `usize::MAX`.
    pub fn left(&self) -> usize
        ensures { result ≡ min (length (bits_left self.now)) usize.MAX }
    {
        match self.rest {
            [] => 0,
            [_, others @ ..] => others
                .len()
                .saturating_mul(8)
                .saturating_add((8 - self.used) as usize),
        }
    }

    /// Returns how many bits are left. This count isn't capped, unlike that of [`BitReader::left`].
    pub(crate) fn count(&self) -> u128
        ensures { result ≡ length (bits_left self.now) }
    {
        (self.rest.len() as u128 * 8).saturating_sub(self.used as u128)
    }

    /// Reads an f(n) field: a number of n bits. Returns `Short` and leaves the reader unchanged if fewer than n bits are left.
    pub fn bits(&mut self, n: u8) -> Result<u32, Short>
        requires { n ≤ 32 }
        ensures read { IfOk result (λ v. fixed n (bits_left self.old) ≡ Some (v, bits_left self.new)) }
        ensures short { OnErr result (fixed n (bits_left self.old) ≡ None) }
        ensures unchanged { OnErr result (self.new ≡ self.old) }
        ensures small { IfOk result (λ v. v < 2 ^ n) }
    {
        if self.left() < n as usize {
            return Err(Short);
        }
        Ok(self.take_bits(n))
    }

    /// Reads an ns(n) field: a number below n. Returns `Short` and leaves the reader unchanged if too few bits are left.
    pub fn ns(&mut self, n: u32) -> Result<u32, Short>
        requires { 1 ≤ n }
        ensures read { IfOk result (λ v. non_symmetric n (bits_left self.old) ≡ Some (v, bits_left self.new)) }
        ensures short { OnErr result (non_symmetric n (bits_left self.old) ≡ None) }
        ensures unchanged { OnErr result (self.new ≡ self.old) }
        ensures small { IfOk result (λ v. v < n) }
    {
        let before = *self;
        let short_forms = short_form_count(n);
        let front = self.bits(digit_count(n) - 1)?;
        if front < short_forms {
            return Ok(front);
        }
        match self.bits(1) {
            Ok(last) => Ok(front + (front - short_forms) + last),
            Err(short) => {
                *self = before;
                Err(short)
            }
        }
    }

    /// Like [`BitReader::bits`], but returns the caller's error `short` instead of `Short`.
    pub fn bits_or<E: Copy>(&mut self, n: u8, short: E) -> Result<u32, E>
        requires { n ≤ 32 }
        ensures read { Gives (λ v. v) result self.new (fixed_or short n (bits_left self.old)) }
        ensures unchanged { OnErr result (self.new ≡ self.old) }
        ensures small { IfOk result (λ v. v < 2 ^ n) }
    {
        self.bits(n).map_err(|_| short)
    }

    /// Like [`BitReader::ns`], but returns the caller's error `short` instead of `Short`.
    pub fn ns_or<E: Copy>(&mut self, n: u32, short: E) -> Result<u32, E>
        requires { 1 ≤ n }
        ensures read { Gives (λ v. v) result self.new (non_symmetric_or short n (bits_left self.old)) }
        ensures unchanged { OnErr result (self.new ≡ self.old) }
        ensures small { IfOk result (λ v. v < n) }
    {
        self.ns(n).map_err(|_| short)
    }

    /// Reads n bits, byte by byte. Each step reads the unread bits of one byte, or only as many of them as are still needed.
    pub(crate) fn take_bits(&mut self, n: u8) -> u32
        requires width { n ≤ 32 }
        requires enough { n ≤ length (bits_left self.old) }
        ensures number { result ≡ value (take n (bits_left self.old)) }
        ensures rest { bits_left self.new ≡ drop n (bits_left self.old) }
    {
        let mut number = 0;
        let mut missing = n;
        while missing > 0 {
            let count = missing.min(8 - self.used);
            number = with_digits(number, count, self.take_in_byte(count));
            missing -= count;
        }
        number
    }

    /// Reads `count` bits. All of them are in the first remaining byte.
    fn take_in_byte(&mut self, count: u8) -> u32
        requires some { 1 ≤ length (bits_left self.old) }
        requires in_byte { self.old.used + count ≤ 8 }
        ensures number { result ≡ value (take count (bits_left self.old)) }
        ensures small { result < 2 ^ count }
        ensures rest { bits_left self.new ≡ drop count (bits_left self.old) }
    {
        match self.rest {
            [] => unreachable!(),
            [first, others @ ..] => {
                let behind = 8 - self.used - count;
                if behind == 0 {
                    self.rest = others;
                    self.used = 0;
                } else {
                    self.used += count;
                }
                digits_at(*first as u32, behind, count)
            }
        }
    }
}
