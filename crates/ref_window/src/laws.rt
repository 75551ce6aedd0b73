// Laws: the window forgets old numbers, but decides like one that keeps all numbers.
ghost use Rattle.ref_window.specs.Laws.{AnswersForAll, ForgetsForGood, HoldsAllNear};

/// A law: suppose that the next inserted number is above all earlier ones. After the insertion, a window that had forgotten old numbers is the same as a
/// window that had kept all numbers.
pub fn forgotten_numbers_are_never_wanted()
    ensures { ForgetsForGood }
{}

/// A law about two kinds of numbers: those at most 4,096 below the newest inserted number, and those at most 4,096 below some number above all inserted
/// numbers. The window contains a number of these kinds exactly if that number was inserted.
pub fn held_numbers_are_enough()
    ensures below { AnswersForAll }
    ensures near { HoldsAllNear }
{}
