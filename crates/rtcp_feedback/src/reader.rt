// The feedback of a datagram.

ghost use Rattle.std.specs.Prelude.{◌≡◌, None, Some, IfOk, IfErr};
ghost use Rattle.rtcp_feedback.specs.Datagram.{IsDatagram};
ghost use Rattle.rtcp_feedback.specs.Faults.{first_fault};
ghost use Rattle.rtcp_feedback.specs.Reading.{feedback_of};

use crate::cursor::{Cursor, cursor_at, first_item};
use crate::fault::RtcpFault;
use crate::feedback::Feedback;
use crate::packet::checked_length;
use std::marker::Model;

/// An iterator over the feedback of a datagram. Contracts see it as the list of the remaining items.
#[derive(Debug, Drop)]
pub struct Feedbacks<'a> {
    datagram: &'a [u8],
    cursor: Cursor,
}

impl<'a> Model for Feedbacks<'a> {
    ghost use Rattle.std.specs.Prelude.{List};
    ghost use Rattle.rtcp_feedback.specs.declared.feedback.Feedback.{Feedback};
    ghost use Rattle.rtcp_feedback.specs.Cursors.{LiesIn, left_at};

    ghost Value = { List Feedback };

    ghost view = { λ f. left_at f.datagram.now f.cursor };

    ghost invariant = { λ f. LiesIn f.datagram.now f.cursor };
}

impl<'a> Iterator for Feedbacks<'a> {
    ghost use Rattle.std.specs.Iterator.{YieldsFirst, item_count};

    type Item = Feedback;

    ghost next_gives = { YieldsFirst (λ left. left) };

    ghost remaining = { item_count (λ left. left) };

    fn next(&mut self) -> Option<Feedback> {
        match first_item(self.datagram, self.cursor) {
            Some((item, behind)) => {
                self.cursor = behind;
                Some(item)
            }
            None => None,
        }
    }
}

/// Reads a datagram (RFC 3550, section 6.1), and returns the feedback of its packets in order (RFC 4585, sections 6.2.1 and 6.3.1). Packets that are
/// neither a generic NACK nor a picture loss indication are skipped, and the first packet may be of any type (own rule). If the datagram is empty or
/// a packet has a fault, returns the first fault and no feedback.
pub fn read<'a>(bytes: &'a [u8]) -> Result<Feedbacks<'a>, RtcpFault>
    ensures items { IfOk result (λ items. items ≡ feedback_of bytes.now) }
    ensures grammar { IfOk result (λ items. IsDatagram bytes.now items) }
    ensures ok { IfOk result (λ _. first_fault bytes.now ≡ None) }
    ensures fault { IfErr result (λ e. first_fault bytes.now ≡ Some e) }
{
    if bytes.is_empty() {
        return Err(RtcpFault::Short);
    }
    let mut rest = bytes;
    while !rest.is_empty() {
        let length = checked_length(rest)?;
        rest = &rest[length..];
    }
    let cursor = cursor_at(0, 0, 0, 0);
    Ok(Feedbacks {
        datagram: bytes,
        cursor,
    })
}
