// Empty lines and comments.
ghost use Rattle.std.specs.Prelude.{◌≡◌};
ghost use Rattle.sfu_script.specs.Skipped.{is_skipped};

/// Returns whether a line is empty or begins with `#`. Such a line has no effect, but it counts as a line. Allocates no memory.
pub fn is_skipped(line: &[u8]) -> bool
    ensures value { result ≡ is_skipped line.now }
{
    match line {
        [] => true,
        [first, ..] => *first == b'#',
    }
}
