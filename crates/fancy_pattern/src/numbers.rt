//! The numbers that digits write.

ghost use Rattle.std.specs.Prelude.{◌≡◌, ◌^◌, ◌<◌, ◌≤◌};
ghost use Rattle.std.specs.Char.{digit_value};
ghost use Rattle.std.specs.Str.Parse.{digits_value};
ghost use Rattle.fancy_pattern.specs.Numbers.{number_of, level_of, signed};

/// The number that these digits write, if it fits. What is no digit counts as 36.
pub(crate) fn number(digits: &[char], radix: usize) -> Option<usize>
    requires { 0 < radix }
    ensures { result ≡ number_of radix digits.now }
{
    let mut number: usize = 0;
    for digit in digits {
        number = number.checked_mul(radix)?.checked_add(digit_value(*digit))?;
    }
    Some(number)
}

fn digit_value(c: char) -> usize
    ensures value { result ≡ digit_value c }
    ensures small { result ≤ 36 }
{
    match c.to_digit(36) {
        Some(digit) => digit as usize,
        None => 36,
    }
}

/// The level that a sign and these digits write, if it fits.
pub(crate) fn level(digits: &[char], negative: bool) -> Option<isize>
    ensures { result ≡ level_of negative digits.now }
{
    let number = number(digits, 10)?;
    if number < 1 << 63 {
        Some(signed(number, negative))
    } else {
        None
    }
}

fn signed(number: usize, negative: bool) -> isize
    requires { number < 2 ^ 63 }
    ensures { result ≡ signed negative number }
{
    let number = number as isize;
    if negative { -number } else { number }
}
