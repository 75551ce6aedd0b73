// What the network does to a packet.

ghost use Rattle.std.specs.Prelude.{◌≡◌};
ghost use Rattle.stream_maker.specs.Fates.{fate_of, word_of, after_word};

use rand_core::utils::NextWord;
use rand_pcg::Lcg64Xsh32;

/// What happens to a packet. For each packet, a word from the random generator decides this.
#[derive(Clone, Copy, Debug, PartialEq, Eq)]
pub(crate) enum Fate {
    Lost,
    Twice,
    /// The packet is held back, unless another is held back already.
    Held,
    Once,
}

// Returns the next word of the generator.
#[tactic(auto, unfolding(crate::specs::Fates::word_of, crate::specs::Fates::after_word))]
pub(crate) fn draw(generator: &mut Lcg64Xsh32) -> u32
    ensures word { result ≡ word_of generator.old }
    ensures after { generator.new ≡ after_word generator.old }
{
    generator.next_word()
}

// The three lowest pairs of the word's decimal digits are draws from 0 to 99 for `Lost`, `Twice` and `Held`. The first draw below `loss` decides.
#[tactic(auto, unfolding(crate::specs::Fates::fate_of))]
pub(crate) fn fate_of(loss: u8, word: u32) -> Fate
    ensures { result ≡ fate_of loss word }
{
    let loss = u32::from(loss);
    if word % 100 < loss {
        Fate::Lost
    } else if word / 100 % 100 < loss {
        Fate::Twice
    } else if word / 10_000 % 100 < loss {
        Fate::Held
    } else {
        Fate::Once
    }
}
