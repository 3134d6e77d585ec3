//! Numbers in decimal digits.

ghost use Rattle.std.specs.Prelude.{◌≡◌, ◌≤◌, ◌+◌, ◌-◌, ◌*◌, ◌^◌, true, IsNone, OnSome, IfSome};
ghost use Rattle.std.specs.Char.{is_ascii_digit};
ghost use Rattle.nbd_text.specs.Numbers.{number_below};

/// A number in decimal digits that fits 64 bits.
pub fn number(digits: &[u8]) -> Option<u64>
    ensures { result ≡ number_below (2 ^ 64) digits.now }
{
    if digits.is_empty() {
        return None;
    }
    let mut value = 0u64;
    for &digit in digits {
        let Some(next) = with_digit(value, digit) else {
            return None;
        };
        value = next;
    }
    Some(value)
}

/// The value with one more digit behind it, if it is one and 64 bits hold it.
fn with_digit(value: u64, digit: u8) -> Option<u64>
    ensures digit { OnSome result (is_ascii_digit digit ≡ true) }
    ensures value { IfSome result (λ next. next ≡ value * 10 + (digit - 48)) }
    ensures none { IsNone result → is_ascii_digit digit ≡ true
        → 2 ^ 64 ≤ value * 10 + (digit - 48) }
{
    if !digit.is_ascii_digit() {
        return None;
    }
    value.checked_mul(10)?.checked_add(u64::from(digit - b'0'))
}
