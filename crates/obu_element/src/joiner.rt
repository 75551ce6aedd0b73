// Checks that a packet continues an OBU element exactly if the previous packet left one unfinished.

ghost use Rattle.std.specs.Prelude.{◌≡◌, ◌≢◌, ◌↔◌, ◌++◌, ◌∷◌, [], IfErr, List, OnErr, OnOk, false, not, true};
ghost use Rattle.obu_element.specs.Joins.{AreJoined, Flags, IsAfter, Join};

use std::marker::Model;
use thiserror::Error;

/// The elements of two consecutive packets don't join: one of these two flags is set, and the other isn't.
#[derive(Clone, Copy, Debug, PartialEq, Eq, Error)]
#[error("the packet's Z is {continues}, and the former Y {carried}")]
pub struct JoinFault {
    /// Y of the previous packet: whether that packet's last element continues in the next packet. If this packet is the first one, `carried` is
    /// false.
    pub carried: bool,
    /// Z of this packet: whether its first element continues the last element of the previous packet.
    pub continues: bool,
}

/// Checks that the elements of a frame's packets join (RTP Payload Format For AV1, section 4.4): the Z of each packet equals the Y of the previous
/// packet. Contracts see a joiner as one flag, which says whether an element is unfinished. The flag is the Y of the last accepted packet, or false
/// before the first packet.
#[derive(Debug, Drop)]
pub struct Joiner {
    carries: bool,
}

impl Model for Joiner {
    ghost use Rattle.std.specs.Prelude.{Bool};

    ghost Value = { Bool };

    ghost view = { λ joiner. joiner.carries };
}

impl Joiner {
    /// A joiner before the first packet.
    pub fn new() -> Joiner
        ensures flag { result ≡ false }
        ensures packets { IsAfter result [] }
    {
        Joiner { carries: false }
    }

    /// Takes Z (`continues`) and Y (`carries`) of the next packet. Refuses the packet exactly when its Z differs from the Y of the last accepted
    /// packet. While no packet has been accepted, that Y counts as 0. A refusal changes nothing.
    pub fn feed(&mut self, continues: bool, carries: bool) -> Result<(), JoinFault>
        ensures ok { OnOk result ((continues ≡ self.old) × (self.new ≡ carries)) }
        ensures fault { IfErr result (λ e. (continues ≢ self.old) × (e ≡ record { carried = self.old; continues = continues })) }
        ensures unchanged { OnErr result (self.new ≡ self.old) }
        ensures joined { (packets : List Flags) → IsAfter self.old packets
            → OnOk result (IsAfter self.new (packets ++ record { continues = continues; carries = carries } ∷ [])) }
        ensures apart { (packets : List Flags) → IsAfter self.old packets
            → OnErr result (AreJoined (packets ++ record { continues = continues; carries = carries } ∷ []) → ⊥) }
    {
        if continues != self.carries {
            return Err(JoinFault {
                carried: self.carries,
                continues,
            });
        }
        self.carries = carries;
        Ok(())
    }

    /// Returns true if no element is unfinished. Only then can the packets so far be a complete frame.
    pub fn is_closed(&self) -> bool
        ensures flag { result ≡ not self.now }
        ensures packets { (packets : List Flags) → IsAfter self.now packets → (result ≡ true) ↔ Join packets }
    {
        !self.carries
    }
}

impl Default for Joiner {
    ghost use Rattle.std.specs.Prelude.{◌≡◌, false};

    ghost is_default = { λ joiner. joiner ≡ false };

    fn default() -> Joiner {
        Joiner::new()
    }
}
