// A ring of bits. The bit of a number is at the index that is the number modulo 4,096, so bits stay in place when the window moves on.
ghost use Rattle.std.specs.Prelude.{◌≡◌, ◌∷◌, ◌+◌, ◌/◌, ◌%◌, ◌<◌, ◌≤◌, ℕ, Some, true, false};
ghost use Rattle.ref_window.specs.Numbers.{held_of};
ghost use Rattle.ref_window.specs.Words.{ChangesBit, ClearsBits, has_bit, held_in};

/// Each number that the window keeps is at most this far below the greatest number.
pub const SPAN: u64 = 4096;

/// The number of words in the ring. Each word has `WORD_BITS` bits.
pub const WORDS: usize = 64;

/// The number of bits in a word.
pub const WORD_BITS: u64 = 64;

/// `SPAN` bits.
pub type Words = [u64; WORDS];

fn word_of(number: u64) -> usize
    ensures value { result ≡ number / 64 % 64 }
    ensures below { result < 64 }
{
    (number / WORD_BITS % WORDS as u64) as usize
}

/// Whether the bit of `number` is 1.
pub fn bit(words: &Words, number: u64) -> bool
    ensures { result ≡ has_bit words.now number }
{
    (words[word_of(number)] >> (number % WORD_BITS)) % 2 == 1
}

fn set_bit(words: &mut Words, number: u64)
    ensures { ChangesBit words.old words.new number true }
{
    words[word_of(number)] |= 1 << (number % WORD_BITS);
}

fn clear_bit(words: &mut Words, number: u64)
    ensures { ChangesBit words.old words.new number false }
{
    words[word_of(number)] &= !(1 << (number % WORD_BITS));
}

// Clears the bits of the numbers in `from..to`. It clears whole words where possible, so it takes at most 190 steps.
fn clear_bits(words: &mut Words, from: u64, to: u64)
    requires order { from ≤ to }
    requires span { to ≤ from + 4096 }
    ensures { ClearsBits words.old words.new from to to }
{
    let mut number = from;
    while number < to {
        number = clear_some(words, number, to);
    }
}

// Clears the bits of some numbers from `number` on, and returns the first number whose bit it didn't clear.
fn clear_some(words: &mut Words, number: u64, to: u64) -> u64
    requires order { number < to }
    requires span { to ≤ number + 4096 }
    ensures up { number < result }
    ensures within { result ≤ to }
    ensures cleared { ClearsBits words.old words.new number result to }
{
    if number % WORD_BITS == 0 && to - number >= WORD_BITS {
        words[word_of(number)] = 0;
        number + WORD_BITS
    } else {
        clear_bit(words, number);
        number + 1
    }
}

/// Clears all bits.
pub fn clear_all(words: &mut Words)
    ensures { (n : ℕ) → has_bit words.new n ≡ false }
{
    *words = [0; WORDS];
}

/// Inserts `number`, which is above `greatest`. Clears the bits of the numbers that leave the window.
pub fn move_on(words: &mut Words, greatest: u64, number: u64)
    requires { greatest < number }
    ensures { held_in (Some number) words.new ≡ held_of (number ∷ held_in (Some greatest) words.old) }
{
    if number - greatest <= SPAN {
        clear_bits(words, greatest + 1, number);
        set_bit(words, greatest);
    } else {
        clear_all(words);
    }
}
