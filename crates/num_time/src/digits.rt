//! Rows of digits, and the numbers that they write.
ghost use Rattle.std.specs.Prelude.{◌≡◌, ◌-◌, ◌^◌, min, true};
ghost use Rattle.std.specs.{List.{list_all}, Str.Parse.{digits_value_after}};
ghost use Rattle.num_time.specs.Numerals.{are_digits, is_zero};

// Whether each byte is a decimal digit.
pub(crate) fn are_digits(text: &[u8]) -> bool
    ensures { result ≡ are_digits text.now }
{
    text.iter().all(|c| c.is_ascii_digit())
}

// Whether each byte is a zero.
pub(crate) fn are_zeros(text: &[u8]) -> bool
    ensures { result ≡ list_all is_zero text.now }
{
    text.iter().all(|c| *c == b'0')
}

// The number that digits write after those of `so_far`, u64::MAX where it is larger.
pub(crate) fn number_after(so_far: u64, digits: &[u8]) -> u64
    requires { are_digits digits.now ≡ true }
    ensures { result ≡ min (digits_value_after 10 so_far digits.now) (2 ^ 64 - 1) }
{
    let mut number = so_far;
    for c in digits {
        number = number
            .saturating_mul(10)
            .saturating_add(u64::from(*c - b'0'));
    }
    number
}
