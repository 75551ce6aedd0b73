// A law of the definitions in the contracts of `Assembly`.

ghost use Rattle.frame_assembly.specs.Joins.{PartsJoinAsPackets, PartsJoinSoFarAsPackets};

/// Two definitions say when the Z and Y flags of a frame's parts fit together: one in `forwarding_model`, the other in `obu_element`. The two are
/// equivalent. Each crate also has a definition for parts whose last element may be unfinished, and these two are equivalent as well. `Brought` is the
/// type of the data that a part carries.
pub fn parts_join_as_their_packets_do<Brought>()
    ensures whole { PartsJoinAsPackets Brought }
    ensures so_far { PartsJoinSoFarAsPackets Brought }
{}
