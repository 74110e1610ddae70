//! Numbers in decimal.
ghost use Rattle.std.specs.Prelude.{◌≡◌, ◌↔◌, IsSome, IfSome};
ghost use Rattle.mig_base.specs.Digits.{IsNumber, number_of};

/// The number that 1 to 10 ASCII digits spell in base ten. Other bytes spell none.
pub fn read_digits(bytes: &[u8]) -> Option<u64>
    ensures valid { IsSome result ↔ IsNumber bytes.now }
    ensures value { IfSome result (λ n. n ≡ number_of bytes.now) }
{
    if bytes.is_empty() || bytes.len() > 10 || !bytes.iter().all(|c| c.is_ascii_digit()) {
        return None;
    }
    Some(digits_value(bytes))
}

fn digits_value(digits: &[u8]) -> u64
    requires { IsNumber digits.now }
    ensures { result ≡ number_of digits.now }
{
    let mut n = 0;
    for c in digits {
        n = 10 * n + u64::from(*c - b'0');
    }
    n
}
