// The law that a book returns the causes of the forwarding model.
ghost use Rattle.cause_book.specs.Model.{KeepsCauses};

/// A law for the frames of one track. Suppose that the verdict on each frame of a subscriber's timeline was written to a book. Take a frame number that is
/// at most the newest, and at most 4,095 below it. For this number, the book returns the cause that the forwarding model defines. `Structure` is the type
/// of template dependency structures.
pub fn a_book_has_causes<Structure>()
    ensures { KeepsCauses Structure }
{}
