//! Counts the binary digits of a number, reads some of them, and appends more.

ghost use Rattle.std.specs.Prelude.{◌≡◌, ◌≤◌, ◌<◌, ◌+◌, ◌-◌, ◌*◌, ◌/◌, ◌%◌, ◌^◌};
ghost use Rattle.dd_bits.specs.Numbers.{digits, short_forms};

/// Returns how many binary digits a number has, without leading zeros.
pub fn digit_count(n: u32) -> u8
    requires { 1 ≤ n }
    ensures value { result ≡ digits n }
    ensures some { 1 ≤ result }
    ensures few { result ≤ 32 }
{
    (32 - n.leading_zeros()) as u8
}

/// Returns how many of the numbers below n have the short form of the encoding ns(n). If n has d binary digits, the short form has d - 1 bits.
pub fn short_form_count(n: u32) -> u32
    requires { 1 ≤ n }
    ensures value { result ≡ short_forms n }
    ensures within { result ≤ n }
    ensures whole { result + n ≡ 2 ^ digits n }
    ensures fits { result + n ≤ 2 ^ 32 }
{
    let all = 1u64 << digit_count(n);
    (all - n as u64) as u32
}

/// Drops the lowest `behind` binary digits of a number, and returns the lowest `count` digits of the rest.
pub fn digits_at(number: u32, behind: u8, count: u8) -> u32
    requires { count ≤ 8 }
    ensures value { result ≡ number / 2 ^ behind % 2 ^ count }
    ensures small { result < 2 ^ count }
{
    if behind < 32 {
        (number >> behind) % (1 << count)
    } else {
        0
    }
}

/// Appends the `count` binary digits of `more` to the binary digits of `number`, and returns the result.
pub fn with_digits(number: u32, count: u8, more: u32) -> u32
    requires count { count ≤ 8 }
    requires more { more < 2 ^ count }
    requires fits { (number + 1) * 2 ^ count ≤ 2 ^ 32 }
    ensures { result ≡ number * 2 ^ count + more }
{
    (number << count) + more
}

/// Returns a byte whose highest `count` bits hold `digits`. Its other bits are 0.
pub fn byte_with(digits: u32, count: u8) -> u8
    requires count { count ≤ 8 }
    requires small { digits < 2 ^ count }
    ensures { result ≡ digits * 2 ^ (8 - count) }
{
    (digits << (8 - count)) as u8
}
