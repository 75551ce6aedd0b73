//! The sessions that publishers, subscribers and controllers have with a room, as state machines that do no I/O.
//!
//! A session has no lock, no socket and no clock. The caller passes in each datagram and the time, makes the calls that the session returns, and sends
//! the datagrams that the session puts into `scratch.packet`. A server that has its own sockets, and owns or shares a room, can run a session in one
//! loop:
//!
//! ```text
//! loop {
//!     let came = socket.receive(&mut scratch.packet);
//!     let output = session.received(came, clock.now(), &mut scratch);
//!     if let Output::Packet = output {
//!         socket.send(&scratch.packet);
//!     }
//!     while let Some(call) = session.call() {
//!         let reply = room.serve(seat, call, &mut scratch);
//!         let output = session.replied(reply, &mut scratch);
//!         if let Output::Packet = output {
//!             socket.send(&scratch.packet);
//!         }
//!     }
//! }
//! ```
//!
//! The session's rule (`specs/Sessions.antt`) names calls and datagrams, in order. By the contract of [`Session`], such a loop makes exactly these
//! calls and sends exactly these datagrams, in this order.
#![tactic(auto)]

mod control;
mod publisher;
mod resending;
mod rtcp;
mod session;
mod subscriber;

pub use control::ControlSession;
pub use publisher::PublisherSession;
pub use session::{Output, Session};
pub use subscriber::SubscriberSession;
