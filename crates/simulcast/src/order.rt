// One entry of the order in which a pump takes packets from the legs.
ghost use Rattle.std.specs.Prelude.{◌≡◌};
ghost use Rattle.simulcast.specs.Pumping.{unless};

/// Returns `leg`, or `None` if `is_taken` is true. `is_taken` says whether the leg already has an earlier place in the order.
pub fn unless(is_taken: bool, leg: u8) -> Option<u8>
    ensures { result ≡ unless is_taken leg }
{
    if is_taken { None } else { Some(leg) }
}
