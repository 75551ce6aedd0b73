// A ring in the terms of the forwarding model.
ghost use Rattle.out_ring.specs.Model.{StoresWhatGoesOut};

/// Suppose that the packets forwarded to a subscriber are pushed to a ring in order, and that each take of the subscriber is a `take` of the
/// ring. Then the ring's queued and kept packets, and their sequence numbers, are those of the forwarding model for this subscriber. A resend
/// by sequence number finds the packet that the model resends. `Structure` is the type of template dependency structures.
pub fn a_ring_stores_what_goes_out<Structure>()
    ensures { StoresWhatGoesOut Structure }
{}
