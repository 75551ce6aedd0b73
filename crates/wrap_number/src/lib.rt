//! Sequence numbers and frame numbers are sent in 16 bits and wrap at 65,536 (RFC 3550, section 5.1). [`place`] and [`above`] unwrap a 16-bit
//! number, given the newest unwrapped number. Neither allocates memory.
#![tactic(auto)]

ghost use Rattle.std.specs.Prelude.{◌≡◌, ◌≤ℤ◌, ◌<◌, ◌^◌, neg_ℤ, pos};
ghost use Rattle.wrap_number.specs.Number.{IsNearest, IsLeastAbove, IsOne, ahead_of, nearest_to, least_above};
ghost use Rattle.wrap_number.specs.Number.{NearestIsNearest, LeastIsLeast, AboveIsNearest, NearestAboveIsFound, NearIsNearestAbove};

// How many numbers of 16 bits there are.
const TURN: u32 = 65_536;

/// Returns the number nearest to `newest` that is congruent to `n` modulo 65,536 (own rule). If two such numbers are equally near, returns the lower
/// one.
pub fn place(newest: i64, n: u16) -> i64
    requires low { neg_ℤ (pos (2 ^ 62)) ≤ℤ newest }
    requires high { newest ≤ℤ pos (2 ^ 62) }
    ensures nearest { IsNearest newest n result }
    ensures value { result ≡ nearest_to newest n }
{
    let ahead = ahead(newest, n);
    if ahead < 32768 {
        newest + i64::from(ahead)
    } else {
        newest + i64::from(ahead) - i64::from(TURN)
    }
}

// The distance, 0 to 65,535, from `newest` up to the least number that isn't below `newest` and is `n` modulo 65,536.
fn ahead(newest: i64, n: u16) -> u32
    ensures value { result ≡ ahead_of newest n }
    ensures below { result < 65536 }
{
    (u32::from(n) + TURN - newest.rem_euclid(i64::from(TURN)) as u32) % TURN
}

/// Returns the least number above `newest` that is congruent to `n` modulo 65,536 (own rule).
pub fn above(newest: u64, n: u16) -> u64
    requires { newest < 2 ^ 63 }
    ensures least { IsLeastAbove newest n result }
    ensures value { result ≡ least_above newest n }
{
    let turn = u64::from(TURN);
    newest + (u64::from(n) + turn - 1 - newest % turn) % turn + 1
}

/// A law: for the same `newest` and `n`, at most one number fulfils `IsNearest`, and at most one fulfils `IsLeastAbove`.
pub fn one_number_is_meant()
    ensures { IsOne }
{}

/// Laws for all numbers. `nearest_to` is the number nearest to `newest`, and `least_above` is the least number above `newest`. `is_above` is true
/// exactly when the nearest number lies above `newest`. In this case, `number_above` is the nearest number.
pub fn values_are_nearest_and_least()
    ensures nearest { NearestIsNearest }
    ensures least { LeastIsLeast }
    ensures above { AboveIsNearest }
    ensures found { NearestAboveIsFound }
{}

/// A law about a number above `newest` that is congruent to `n` modulo 65,536. It is the number nearest to `newest` exactly if it is less than 32,768
/// above `newest`.
pub fn near_above_is_nearest()
    ensures { NearIsNearestAbove }
{}
