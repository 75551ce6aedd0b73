// Computes places of slots. Places wrap around after the last slot.
ghost use Rattle.std.specs.Prelude.{◌≡◌, ◌<◌, ◌+◌, ◌%◌};

/// How many slots a ring has: 1,024 for kept packets and 512 for queued ones (own rule).
pub const SLOTS: usize = 1536;

/// The place that is `count` places after this one, modulo 1,536.
#[inline(always)]
pub fn place_from(place: usize, count: usize) -> usize
    requires place { place < 1536 }
    requires count { count < 1536 }
    ensures place { result ≡ (place + count) % 1536 }
    ensures below { result < 1536 }
{
    let there = place + count;
    if there < SLOTS { there } else { there - SLOTS }
}

/// The place after this one, modulo 1,536.
#[inline(always)]
pub fn next_place(place: usize) -> usize
    requires { place < 1536 }
    ensures place { result ≡ (place + 1) % 1536 }
    ensures below { result < 1536 }
{
    place_from(place, 1)
}
