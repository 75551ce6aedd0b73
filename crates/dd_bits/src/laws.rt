//! Laws of the encodings f(n) and ns(n): a written number is read back, whatever bits follow it, and each number has exactly one encoding.

ghost use Rattle.std.specs.Prelude.{◌≡◌, Bool, ◌<◌, ◌≤◌, ◌^◌, ◌++◌, ℕ, List, Some};
ghost use Rattle.dd_bits.specs.Bits.{bits_of};
ghost use Rattle.dd_bits.specs.Numbers.{fixed, non_symmetric, non_symmetric_bits};

/// For f(n): a number of n bits is read back from its encoding. Whenever a number is read, the bits that were read are the number's encoding.
pub fn bits_read_back()
    ensures back { (n v : ℕ) (rest : List Bool) → v < 2 ^ n → fixed n (bits_of n v ++ rest) ≡ Some (v, rest) }
    ensures spelled { (n v : ℕ) (bits rest : List Bool) → fixed n bits ≡ Some (v, rest) → (bits ≡ bits_of n v ++ rest) × (v < 2 ^ n) }
{}

/// For ns(n) with n from 1 to 2^32 - 1: a number below n is read back from its encoding. Whenever a number is read, the bits that were read are the
/// number's encoding.
pub fn ns_reads_back()
    ensures back { (n v : ℕ) (rest : List Bool) → n < 2 ^ 32 → v < n → non_symmetric n (non_symmetric_bits n v ++ rest) ≡ Some (v, rest) }
    ensures spelled { (n v : ℕ) (bits rest : List Bool) → 1 ≤ n → n < 2 ^ 32 → non_symmetric n bits ≡ Some (v, rest)
        → (bits ≡ non_symmetric_bits n v ++ rest) × (v < n) }
{}
