// Numbers as decimal digits.
ghost use Rattle.std.specs.Prelude.{◌≡◌, ◌<◌, ◌≤◌, ◌^◌, length, true};
ghost use Rattle.std.specs.List.{list_all};
ghost use Rattle.sv_words.specs.Digits.{is_digit, is_number, number_of};

/// A decimal digit.
fn is_digit(b: u8) -> bool
    ensures { result ≡ is_digit b }
{
    48 <= b && b <= 57
}

fn are_digits(bytes: &[u8]) -> bool
    ensures { result ≡ list_all is_digit bytes.now }
{
    bytes.iter().all(|b| is_digit(*b))
}

/// Whether these are 1 to so many digits.
pub fn is_number(most: usize, bytes: &[u8]) -> bool
    ensures { result ≡ is_number most bytes.now }
{
    0 < bytes.len() && bytes.len() <= most && are_digits(bytes)
}

/// The number that at most 20 digits stand for.
pub fn number_of(digits: &[u8]) -> u128
    requires few { length digits.now ≤ 20 }
    requires digits { list_all is_digit digits.now ≡ true }
    ensures value { result ≡ number_of digits.now }
    ensures below { result < 10 ^ length digits.now }
{
    let mut number: u128 = 0;
    for d in digits {
        number = number * 10 + (*d as u128 - 48);
    }
    number
}
