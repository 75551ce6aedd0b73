// Texts that are written directly into a buffer.
ghost use Rattle.std.specs.Prelude.{◌≡◌, ℕ, List, length};

/// A text that can be written directly into a slice of the text's length.
pub trait Text {
    /// The text's bytes.
    ghost text: { Self → List ℕ };

    /// How many bytes the text has.
    fn size(&self) -> usize
        ensures { result ≡ length (text self.now) };

    /// Overwrites the whole slice with the text. The slice must have the text's length.
    fn write(&self, out: &mut [u8])
        requires { length out.old ≡ length (text self.now) }
        ensures { out.new ≡ text self.now };
}
