// Bytes in a buffer whose capacity is a const parameter. The crates' own buffers are built of it.
ghost use Rattle.std.specs.Prelude.{◌≡◌, ◌+◌, ◌==◌, ◌≤◌, ◌++◌, [], length, take, drop};

use std::marker::Model;

/// A buffer of up to `N` bytes. Contracts see it as the list of its bytes. No call allocates memory.
#[derive(Debug, Drop)]
pub struct FixedBuf<const N: usize> {
    buf: [u8; N],
    count: usize,
}

impl<const N: usize> Model for FixedBuf<N> {
    ghost use Rattle.std.specs.Prelude.{List, ℕ, take, ◌≤◌};

    ghost Value = { List ℕ };

    ghost view = { λ p. take p.count p.buf };

    ghost invariant = { λ p. p.count ≤ N };
}

impl<const N: usize> FixedBuf<N> {
    /// An empty buffer.
    pub fn new() -> FixedBuf<N>
        ensures { result ≡ [] }
    {
        FixedBuf {
            buf: [0; N],
            count: 0,
        }
    }

    /// A buffer with the first `count` bytes of an array. `count` is at most `N`.
    pub fn of(buf: [u8; N], count: usize) -> FixedBuf<N>
        requires { count ≤ N }
        ensures { result ≡ take count buf.entry }
    {
        FixedBuf { buf, count }
    }

    /// Removes all bytes.
    pub fn clear(&mut self)
        ensures { self.new ≡ [] }
    {
        self.count = 0;
    }

    /// Replaces the contents by these bytes, at most `N`.
    pub fn fill(&mut self, bytes: &[u8])
        requires { length bytes.now ≤ N }
        ensures { self.new ≡ bytes.now }
    {
        let count = bytes.len();
        self.buf[..count].copy_from_slice(bytes);
        self.count = count;
    }

    /// Appends these bytes. The buffer must have capacity for them.
    pub fn append(&mut self, bytes: &[u8])
        requires { length self.old + length bytes.now ≤ N }
        ensures { self.new ≡ self.old ++ bytes.now }
    {
        let count = self.count;
        let end = count + bytes.len();
        self.buf[..end][count..].copy_from_slice(bytes);
        self.count = end;
    }

    /// Overwrites the contents from index `place` on with these bytes. The new bytes must end within the contents, so the length stays the same.
    pub fn overwrite(&mut self, place: usize, bytes: &[u8])
        requires { place + length bytes.now ≤ length self.old }
        ensures { self.new ≡ take place self.old ++ bytes.now ++ drop (place + length bytes.now) self.old }
    {
        let count = self.count;
        self.buf[..count][place..place + bytes.len()].copy_from_slice(bytes);
    }

    /// The number of bytes.
    pub fn len(&self) -> usize
        ensures len { result ≡ length self.now }
        ensures bounded { length self.now ≤ N }
    {
        self.count
    }

    /// Whether there are no bytes.
    pub fn is_empty(&self) -> bool
        ensures { result ≡ (length self.now == 0) }
    {
        self.count == 0
    }

    /// The bytes, in order.
    pub fn bytes(&self) -> &[u8]
        ensures bytes { result.now ≡ self.now }
        ensures bounded { length self.now ≤ N }
    {
        &self.buf[..self.count]
    }
}
