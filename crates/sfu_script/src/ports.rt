// The lines that name the UDP ports of `serve`, and the role of each port.
ghost use Rattle.std.specs.Prelude.{◌≡◌, ℕ, IfOk, OnErr};
ghost use Rattle.std.specs.Result.{result_ok};
ghost use Rattle.sfu_script.specs.declared.ports.PortLine.{PortLine};
ghost use Rattle.sfu_script.specs.declared.ports.PortRole.TheVariants.{Rtx};
ghost use Rattle.sfu_script.specs.Ports.{IsPortLine, address_of, addressed, ip_of, is_apart, named_role_of, port_of, publisher_of, role_of, rtx_of, subscriber_of};

use crate::NoLine;
use crate::fields::Field::{Number8, Number32, Ssrc};
use crate::fields::read_fields;
use crate::words::{number8, number16, split, split_at};
use sfu_base::Address;

/// The role of a port. `ssrc` is the SSRC of the publisher's packets, or of the packets forwarded to the subscriber. `rtx_ssrc` and `payload_type` are the
/// SSRC and the payload type of the subscriber's retransmissions.
#[derive(Clone, Copy, Debug, PartialEq, Eq)]
pub enum PortRole {
    /// Receives the packets of a track.
    Publisher {
        track: u32,
        ssrc: u32,
    },
    /// Sends a subscriber's packets, and receives its feedback.
    Subscriber {
        subscriber: u32,
        ssrc: u32,
    },
    /// Receives lines with calls, and sends the replies.
    Control,
    /// Sends a subscriber's packets, and receives its feedback. Retransmissions are sent in a separate RTP stream (RFC 4588).
    Rtx {
        subscriber: u32,
        ssrc: u32,
        rtx_ssrc: u32,
        payload_type: u8,
    },
}

/// A port to serve: its own address, its peer's address, and its role.
#[derive(Clone, Copy, Debug, PartialEq, Eq)]
pub struct PortLine {
    pub local: Address,
    pub peer: Address,
    pub role: PortRole,
}

#[tactic(auto, unfolding(crate::specs::Ports::ip_of))]
fn ip(word: &[u8]) -> Result<u32, NoLine>
    ensures { result_ok result ≡ ip_of word.now }
{
    let (first, rest) = split_at(word, b'.')?;
    let (second, rest) = split_at(rest, b'.')?;
    let (third, fourth) = split_at(rest, b'.')?;
    let first = number8(first)?;
    let second = number8(second)?;
    let third = number8(third)?;
    let fourth = number8(fourth)?;
    Ok(u32::from_be_bytes([first, second, third, fourth]))
}

#[tactic(auto, unfolding(crate::specs::Ports::address_of))]
fn address(word: &[u8]) -> Result<Address, NoLine>
    ensures { result_ok result ≡ address_of word.now }
{
    let (host, port) = split_at(word, b':')?;
    let ip = ip(host)?;
    let port = number16(port)?;
    Ok(Address { ip, port })
}

fn publisher(rest: &[u8]) -> Result<PortRole, NoLine>
    ensures { result_ok result ≡ publisher_of rest.now }
{
    let [track, ssrc] = read_fields(&[Number32, Ssrc], rest)?;
    Ok(PortRole::Publisher {
        track: track as u32,
        ssrc: ssrc as u32,
    })
}

fn subscriber(rest: &[u8]) -> Result<PortRole, NoLine>
    ensures { result_ok result ≡ subscriber_of rest.now }
{
    let [subscriber, ssrc] = read_fields(&[Number32, Ssrc], rest)?;
    Ok(PortRole::Subscriber {
        subscriber: subscriber as u32,
        ssrc: ssrc as u32,
    })
}

// Returns whether retransmissions differ from other packets by SSRC (RFC 4588, section 5.3), and from RTCP by payload type (RFC 5761, section 4).
fn are_apart(ssrc: u32, rtx_ssrc: u32, payload_type: u8) -> bool
    ensures { (subscriber : ℕ) → result ≡ is_apart (Rtx subscriber ssrc rtx_ssrc payload_type) }
{
    rtx_ssrc != ssrc && matches!(payload_type, 0..=63 | 96..=127)
}

fn rtx(rest: &[u8]) -> Result<PortRole, NoLine>
    ensures { result_ok result ≡ rtx_of rest.now }
{
    let [subscriber, ssrc, rtx_ssrc, payload_type] = read_fields(
        &[Number32, Ssrc, Ssrc, Number8],
        rest,
    )?;
    let (ssrc, rtx_ssrc, payload_type) = (ssrc as u32, rtx_ssrc as u32, payload_type as u8);
    if !are_apart(ssrc, rtx_ssrc, payload_type) {
        return Err(NoLine);
    }
    Ok(PortRole::Rtx {
        subscriber: subscriber as u32,
        ssrc,
        rtx_ssrc,
        payload_type,
    })
}

fn named_role(word: &[u8], rest: &[u8]) -> Result<PortRole, NoLine>
    ensures { result_ok result ≡ named_role_of word.now rest.now }
{
    match word {
        b"publisher" => publisher(rest),
        b"subscriber" => subscriber(rest),
        b"rtx" => rtx(rest),
        _ => Err(NoLine),
    }
}

#[tactic(auto, unfolding(crate::specs::Ports::role_of))]
fn role(rest: &[u8]) -> Result<PortRole, NoLine>
    ensures { result_ok result ≡ role_of rest.now }
{
    if rest == b"control".as_slice() {
        return Ok(PortRole::Control);
    }
    let (word, rest) = split(rest)?;
    named_role(word, rest)
}

#[tactic(auto, unfolding(crate::specs::Ports::addressed))]
fn behind(rest: &[u8]) -> Result<PortLine, NoLine>
    ensures { result_ok result ≡ addressed rest.now }
{
    let (word, rest) = split(rest)?;
    let local = address(word)?;
    let (word, rest) = split(rest)?;
    let peer = address(word)?;
    let role = role(rest)?;
    Ok(PortLine { local, peer, role })
}

fn port(line: &[u8]) -> Result<PortLine, NoLine>
    ensures { result_ok result ≡ port_of line.now }
{
    let (word, rest) = split(line)?;
    match word {
        b"port" => behind(rest),
        _ => Err(NoLine),
    }
}

/// Reads a line `port LOCAL PEER ROLE`. Both addresses are `a.b.c.d:port`. The role is `publisher T SSRC`, `subscriber S SSRC`, `control`, or `rtx S SSRC
/// RTXSSRC PT`. RTXSSRC differs from SSRC. PT is 0 to 63 or 96 to 127. Returns `NoLine` exactly when the line isn't of this form. Allocates no memory.
pub fn read_port(line: &[u8]) -> Result<PortLine, NoLine>
    ensures value { result_ok result ≡ port_of line.now }
    ensures ok { IfOk result (λ said. IsPortLine said line.now) }
    ensures err { OnErr result ((said : PortLine) → ¬ (IsPortLine said line.now)) }
{
    port(line)
}
