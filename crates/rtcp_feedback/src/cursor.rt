// A cursor into the feedback of a datagram. The cursor borrows nothing, so one struct can own both the datagram and the cursor.
ghost use Rattle.std.specs.Prelude.{◌≡◌, ◌+◌, ◌-◌, ◌++◌, ◌<◌, ◌≤◌, ◌∷◌, [], List, ℕ, None, MatchOption, IfSome, length, drop, slice_range};
ghost use Rattle.rtcp_feedback.specs.Faults.{fault_among, packets_in};
ghost use Rattle.rtcp_feedback.specs.Names.{names_in};
ghost use Rattle.rtcp_feedback.specs.Reading.{feedback_of, nacks};
ghost use Rattle.rtcp_feedback.specs.Cursors.{LiesIn, left_at};

use crate::feedback::Feedback;
use crate::names::{Names, PAIR, first_name, first_pair};
use crate::packet::{Body, SOURCES, split_packet};

/// The part of a datagram that remains to be read. First come the remaining sequence numbers of the current pair. The other pairs of the same NACK
/// follow, in the bytes `pairs..end`. The packets from byte `packets` on come last.
#[derive(Clone, Copy, Debug)]
pub(crate) struct Cursor {
    pub(crate) names: Names,
    pub(crate) media: u32,
    pub(crate) pairs: usize,
    pub(crate) end: usize,
    pub(crate) packets: usize,
}

/// A cursor without a current pair. Two parts remain to be read: first the bytes `pairs..end`, which are pairs of a NACK for `media`, and then the
/// packets from byte `packets` on.
pub(crate) fn cursor_at(media: u32, pairs: usize, end: usize, packets: usize) -> Cursor
    ensures left { (bytes : List ℕ) → left_at bytes result ≡ nacks media (names_in (slice_range bytes pairs end)) ++ feedback_of (drop packets bytes) }
    ensures fields { (result.pairs ≡ pairs) × (result.end ≡ end) × (result.packets ≡ packets) }
{
    let names = Names { next: 0, bits: 0 };
    Cursor {
        names,
        media,
        pairs,
        end,
        packets,
    }
}

/// Enters the packet that begins at byte `start`, and returns the next cursor. In a NACK, this cursor is at the first pair. For any other packet, it
/// is at the packet's end. If the packet is a picture loss indication, its item is returned too.
fn enter_packet(bytes: &[u8], start: usize) -> (Option<Feedback>, Cursor)
    requires some { start < length bytes.now }
    requires faultless { fault_among (packets_in (drop start bytes.now)) ≡ None }
    ensures item { MatchOption result.0 (feedback_of (drop start bytes.now) ≡ left_at bytes.now result.1) (λ x. feedback_of (drop start bytes.now) ≡ x ∷ left_at bytes.now result.1) }
    ensures within { LiesIn bytes.now result.1 }
    ensures shorter { result.1.end - result.1.pairs + (length bytes.now - result.1.packets) < length bytes.now - start }
{
    let packets = &bytes[start..];
    let (body, behind) = split_packet(packets);
    let next = bytes.len() - behind.len();
    match body {
        Body::Nack { media, pairs } => {
            let first = start + SOURCES;
            (None, cursor_at(media, first, first + pairs.len(), next))
        }
        Body::Pli { media } => (
            Some(Feedback::Pli { media }),
            cursor_at(media, next, next, next),
        ),
        Body::Other => (None, cursor_at(0, next, next, next)),
    }
}

/// Returns the next item and the cursor after that item, or `None` if no item remains.
pub(crate) fn first_item(bytes: &[u8], cursor: Cursor) -> Option<(Feedback, Cursor)>
    requires { LiesIn bytes.now cursor }
    ensures item { MatchOption result (left_at bytes.now cursor ≡ []) (λ x. left_at bytes.now cursor ≡ x.0 ∷ left_at bytes.now x.1) }
    ensures within { IfSome result (λ x. LiesIn bytes.now x.1) }
{
    let mut at = cursor;
    loop {
        if let Some((seq, names)) = first_name(at.names) {
            let media = at.media;
            return Some((Feedback::Nack { media, seq }, Cursor { names, ..at }));
        }
        let pairs = &bytes[at.pairs..at.end];
        if pairs.len() >= PAIR {
            at.names = first_pair(pairs);
            at.pairs += PAIR;
        } else if at.packets == bytes.len() {
            return None;
        } else {
            let (item, behind) = enter_packet(bytes, at.packets);
            if let Some(item) = item {
                return Some((item, behind));
            }
            at = behind;
        }
    }
}
