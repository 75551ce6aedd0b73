// Hooks around the actors' calls.

/// A hook that is called before and after each actor's call, outside the lock. It may delay actors.
pub trait Gate: Sync {
    /// Called before an actor makes a call. `actor` is the actor's number, 1 to 8. `line` is the call's index among the actor's calls, counted from
    /// 0.
    fn before(&self, actor: u8, line: u32);

    /// Called after the actor has made the call.
    fn after(&self, actor: u8, line: u32);
}

/// A gate that does nothing.
#[derive(Clone, Copy, Debug)]
pub struct OpenGate;

impl Gate for OpenGate {
    fn before(&self, _actor: u8, _line: u32) {}

    fn after(&self, _actor: u8, _line: u32) {}
}
