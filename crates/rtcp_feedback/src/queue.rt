// A queue that owns a datagram and returns its feedback.
ghost use Rattle.std.specs.Prelude.{◌≡◌, ◌≤◌, ◌∷◌, [], length, MatchOption, IfOk, IfErr, None, Some};
ghost use Rattle.rtcp_feedback.specs.Faults.{first_fault};
ghost use Rattle.rtcp_feedback.specs.Reading.{feedback_of};

use crate::cursor::{Cursor, cursor_at, first_item};
use crate::fault::RtcpFault;
use crate::feedback::Feedback;
use crate::reader::read;
use sfu_base::PacketBuf;
use std::marker::Model;

/// A queue of the feedback in one datagram. Contracts see it as the list of the remaining items. The queue owns a copy of the datagram, so a
/// session can keep the queue between two calls. [`Feedbacks`](crate::Feedbacks) borrows the datagram instead.
#[derive(Debug, Drop)]
pub struct FeedbackQueue {
    datagram: PacketBuf,
    cursor: Cursor,
}

impl Model for FeedbackQueue {
    ghost use Rattle.std.specs.Prelude.{List};
    ghost use Rattle.rtcp_feedback.specs.declared.feedback.Feedback.{Feedback};
    ghost use Rattle.rtcp_feedback.specs.Cursors.{LiesIn, left_at};

    ghost Value = { List Feedback };

    ghost view = { λ q. left_at q.datagram q.cursor };

    ghost invariant = { λ q. LiesIn q.datagram q.cursor };
}

impl FeedbackQueue {
    /// An empty queue.
    pub fn new() -> FeedbackQueue
        ensures { result ≡ [] }
    {
        FeedbackQueue {
            datagram: PacketBuf::new(),
            cursor: cursor_at(0, 0, 0, 0),
        }
    }

    /// Drops the remaining items.
    pub fn clear(&mut self)
        ensures { self.new ≡ [] }
    {
        let end = self.datagram.bytes().len();
        self.cursor = cursor_at(0, end, end, end);
    }

    /// Replaces the remaining items with the feedback that [`read`] finds in a datagram of at most 2,048 bytes. The errors are those of
    /// [`read`]. After an error the queue is empty.
    pub fn fill(&mut self, datagram: &[u8]) -> Result<(), RtcpFault>
        requires { length datagram.now ≤ 2048 }
        ensures ok { IfOk result (λ done. (first_fault datagram.now ≡ None) × (self.new ≡ feedback_of datagram.now)) }
        ensures err { IfErr result (λ fault. (first_fault datagram.now ≡ Some fault) × (self.new ≡ [])) }
    {
        match read(datagram) {
            Ok(_items) => {
                self.datagram.fill(datagram);
                self.cursor = cursor_at(0, 0, 0, 0);
                Ok(())
            }
            Err(fault) => {
                self.clear();
                Err(fault)
            }
        }
    }

    /// Removes and returns the first item, or returns `None` if the queue is empty.
    pub fn pop(&mut self) -> Option<Feedback>
        ensures { MatchOption result ((self.old ≡ []) × (self.new ≡ [])) (λ item. self.old ≡ item ∷ self.new) }
    {
        match first_item(self.datagram.bytes(), self.cursor) {
            Some((item, behind)) => {
                self.cursor = behind;
                Some(item)
            }
            None => None,
        }
    }
}
