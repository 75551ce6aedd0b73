// An example of how a crate uses a law: it calls the law's function, and can rely on the law from then on.

ghost use Rattle.std.specs.Prelude.{◌≤◌, List};
ghost use Rattle.sfu_base.specs.declared.frame.Wish.{Wish};
ghost use Rattle.forwarding_model.specs.forwarding.Standing.{standing};
ghost use Rattle.forwarding_model.specs.forwarding.Timeline.{Event};

use forwarding_laws::queues_are_short;

/// Whatever events came, at most 512 packets are queued for a subscriber.
pub fn no_queue_is_long<Structure>()
    ensures { (wish : Wish) (events : List (Event Structure)) → (standing wish events).queued ≤ 512 }
{
    queues_are_short::<Structure>();
}
