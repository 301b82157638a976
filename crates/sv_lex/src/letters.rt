// Tests of bytes, and how many bytes pass one before the first that does not.

ghost use Rattle.std.specs.Prelude.{◌≡◌, ◌≤◌, ◌<◌, ◌+◌, ◌^◌, false, length};
ghost use Rattle.std.specs.List.{prefix_len};
ghost use Rattle.std.specs.Char.{is_ascii_digit};
ghost use Rattle.sv_tree.specs.Tokens.{is_letter, is_name_part, is_digit_or_mark, is_word_part, is_digit_part, is_base_letter, is_decimal_letter, is_sign_letter, is_on_line, is_filling_digit, is_unit_letter};
ghost use Rattle.sv_lex.specs.FirstBytes.{grown};
ghost use Rattle.sv_tree.specs.Directives.{is_space};

/// A letter or `_`.
pub fn is_letter(c: u8) -> bool
    ensures { result ≡ is_letter c }
{
    c.is_ascii_alphabetic() || c == b'_'
}

/// A letter, a digit, `_` or `$`.
pub fn is_name_part(c: u8) -> bool
    ensures { result ≡ is_name_part c }
{
    is_letter(c) || c.is_ascii_digit() || c == b'$'
}

/// A digit or `_`.
pub fn is_digit_or_mark(c: u8) -> bool
    ensures { result ≡ is_digit_or_mark c }
{
    c.is_ascii_digit() || c == b'_'
}

/// A letter, a digit or `_`.
pub fn is_word_part(c: u8) -> bool
    ensures { result ≡ is_word_part c }
{
    is_letter(c) || c.is_ascii_digit()
}

/// A letter, a digit, `_` or `?`.
pub fn is_digit_part(c: u8) -> bool
    ensures { result ≡ is_digit_part c }
{
    is_word_part(c) || c == b'?'
}

/// `b`, `o` or `h`, in either case.
pub fn is_base_letter(c: u8) -> bool
    ensures { result ≡ is_base_letter c }
{
    c == b'b' || c == b'B' || c == b'o' || c == b'O' || c == b'h' || c == b'H'
}

/// `d`, in either case.
pub fn is_decimal_letter(c: u8) -> bool
    ensures { result ≡ is_decimal_letter c }
{
    c == b'd' || c == b'D'
}

/// `s`, in either case.
pub fn is_sign_letter(c: u8) -> bool
    ensures { result ≡ is_sign_letter c }
{
    c == b's' || c == b'S'
}

/// `0`, `1`, `x` or `z`, in either case.
pub fn is_filling_digit(c: u8) -> bool
    ensures { result ≡ is_filling_digit c }
{
    c == b'0' || c == b'1' || c == b'x' || c == b'z' || c == b'X' || c == b'Z'
}

/// The first letter of a unit of time that has two.
pub fn is_unit_letter(c: u8) -> bool
    ensures { result ≡ is_unit_letter c }
{
    c == b'm' || c == b'u' || c == b'n' || c == b'p' || c == b'f'
}

/// Any byte but a newline.
pub fn is_on_line(c: u8) -> bool
    ensures { result ≡ is_on_line c }
{
    c != b'\n'
}

/// A blank or a tab.
pub fn is_space(c: u8) -> bool
    ensures { result ≡ is_space c }
{
    c == b' ' || c == b'\t'
}

/// How many bytes that may stand in a name the text begins with.
pub fn name_run(s: &[u8]) -> usize
    ensures value { result ≡ prefix_len is_name_part s.now }
    ensures within { result ≤ length s.now }
{
    s.iter().take_while(|c| is_name_part(**c)).count()
}

/// How many digits the text begins with.
pub fn digit_run(s: &[u8]) -> usize
    ensures value { result ≡ prefix_len is_ascii_digit s.now }
    ensures within { result ≤ length s.now }
{
    s.iter().take_while(|c| c.is_ascii_digit()).count()
}

/// How many digits and `_` the text begins with.
pub fn digit_or_mark_run(s: &[u8]) -> usize
    ensures value { result ≡ prefix_len is_digit_or_mark s.now }
    ensures within { result ≤ length s.now }
{
    s.iter().take_while(|c| is_digit_or_mark(**c)).count()
}

/// How many letters, digits and `_` the text begins with.
pub fn word_run(s: &[u8]) -> usize
    ensures value { result ≡ prefix_len is_word_part s.now }
    ensures within { result ≤ length s.now }
{
    s.iter().take_while(|c| is_word_part(**c)).count()
}

/// How many letters, digits, `_` and `?` the text begins with.
pub fn digit_part_run(s: &[u8]) -> usize
    ensures value { result ≡ prefix_len is_digit_part s.now }
    ensures within { result ≤ length s.now }
{
    s.iter().take_while(|c| is_digit_part(**c)).count()
}

/// How many bytes stand before the next newline.
pub fn line_run(s: &[u8]) -> usize
    ensures value { result ≡ prefix_len is_on_line s.now }
    ensures within { result ≤ length s.now }
{
    s.iter().take_while(|c| is_on_line(**c)).count()
}

/// How many blanks and tabs the text begins with.
pub fn space_run(s: &[u8]) -> usize
    ensures value { result ≡ prefix_len is_space s.now }
    ensures within { result ≤ length s.now }
{
    s.iter().take_while(|c| is_space(**c)).count()
}

/// One more byte before so many, where there are any.
pub fn lifted(n: usize) -> usize
    requires { n < 2 ^ 63 }
    ensures value { result ≡ grown false n }
    ensures within { result ≤ n + 1 }
{
    if n == 0 { 0 } else { n + 1 }
}
