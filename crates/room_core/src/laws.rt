// Laws that follow from several definitions of this crate.
ghost use Rattle.room_core.specs.Openings.{FramesOpenTheirTargets};

/// A law about each forwarded frame: the frame opens its target by the rule for sending (`opens`) if and only if it opens its target by the rule for
/// selecting frames.
pub fn frames_open_their_targets()
    ensures { FramesOpenTheirTargets }
{}
