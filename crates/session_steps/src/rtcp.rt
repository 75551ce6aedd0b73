// Which datagrams are RTCP.
ghost use Rattle.std.specs.Prelude.{◌≡◌};
ghost use Rattle.session_steps.specs.Datagrams.{is_rtcp};

/// Returns whether a datagram is RTCP: its second byte is 192 to 223 (RFC 5761, section 4).
pub(crate) fn is_rtcp(bytes: &[u8]) -> bool
    ensures { result ≡ is_rtcp bytes.now }
{
    match bytes {
        [_, second, ..] => *second >= 192 && *second <= 223,
        _ => false,
    }
}
