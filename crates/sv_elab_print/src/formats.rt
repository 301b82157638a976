// Formats (IEEE 1800-2017, 21.2.1).
ghost use Rattle.std.specs.Prelude.{◌≡◌, [], ◌∷◌, ◌++◌, ◌-◌, List, ℕ, None as none, Some as some, IfOk, IfErr};
ghost use Rattle.sv_names.specs.Formats as formats;
ghost use Rattle.sv_names.specs.declared.refusal.Refusal.TheVariants.{Memory};
ghost use Rattle.sv_elab_print.specs.Reading.{width_of, letter_behind, read_behind, read_on, read_if};

use std::alloc::Global;
use sv_names::Refusal;
use sv_value::{FormatField, Pad, Piece, Radix, Seq};

// ---- one field

/// A digit of a width.
fn digit_of(byte: u8) -> u16
    ensures { result ≡ byte - 48 }
{
    u16::from(byte.saturating_sub(b'0'))
}

/// A width of at most three digits.
fn width_of(digits: &[u8]) -> Option<Pad>
    ensures { result ≡ width_of digits.now }
{
    match digits {
        [a] => Some(Pad::Wide(digit_of(*a))),
        [a, b] => Some(Pad::Wide(10 * digit_of(*a) + digit_of(*b))),
        [a, b, c] => Some(Pad::Wide(10 * (10 * digit_of(*a) + digit_of(*b)) + digit_of(*c))),
        _ => None,
    }
}

/// What the digits before a letter tell: nothing, `0`, or a width of 1 to 999.
fn pad_of(digits: &[u8]) -> Option<Pad>
    ensures { result ≡ formats.pad_of digits.now }
{
    match digits {
        [] => Some(Pad::Full),
        [first, rest @ ..] => {
            if *first != b'0' {
                width_of(digits)
            } else if rest.is_empty() {
                Some(Pad::Least)
            } else {
                None
            }
        }
    }
}

/// The field of a letter, in either case.
fn field_of(letter: u8) -> Option<FormatField>
    ensures { result ≡ formats.field_of (formats.lower letter) }
{
    match letter {
        b'b' | b'B' => Some(FormatField::Number(Radix::Bin)),
        b'o' | b'O' => Some(FormatField::Number(Radix::Oct)),
        b'h' | b'H' | b'x' | b'X' => Some(FormatField::Number(Radix::Hex)),
        b'd' | b'D' => Some(FormatField::Number(Radix::Dec)),
        b't' | b'T' => Some(FormatField::Time),
        b'c' | b'C' => Some(FormatField::Character),
        b's' | b'S' => Some(FormatField::Text),
        _ => None,
    }
}

/// A `%` behind so many blanks.
#[tactic(auto, using(crate::proofs::FormatLaws::blanks_are))]
fn percent_behind(alloc: Global, count: u16) -> Result<Seq<u8>, Refusal>
    ensures ok { IfOk result (λ t. t ≡ formats.blanks count ++ 37 ∷ []) }
    ensures err { IfErr result (λ e. e ≡ Memory) }
{
    let mut bytes = Seq::new(alloc);
    bytes.push_copies(b' ', usize::from(count))?;
    bytes.push(b'%')?;
    Ok(bytes)
}

/// The bytes of `%%`, padded.
fn percent(alloc: Global, pad: Pad) -> Result<Seq<u8>, Refusal>
    ensures ok { IfOk result (λ t. t ≡ formats.percent pad) }
    ensures err { IfErr result (λ e. e ≡ Memory) }
{
    match pad {
        Pad::Wide(width) => percent_behind(alloc, width.saturating_sub(1)),
        Pad::Full => percent_behind(alloc, 0),
        Pad::Least => percent_behind(alloc, 0),
    }
}

/// A field with its pad.
fn spec_of(field: Option<FormatField>, pad: Option<Pad>) -> Option<Piece>
    ensures { result ≡ formats.spec_of field pad }
{
    match field {
        None => None,
        Some(field) => match pad {
            None => None,
            Some(pad) => Some(Piece::Field(field, pad)),
        },
    }
}

// ---- from the left

/// A format that is read: the parts so far, the plain text behind them, and the digits behind a `%`.
#[derive(Drop)]
pub struct Reading {
    /// The parts so far.
    pub done: Seq<Piece>,
    /// The plain text behind them.
    pub plain: Seq<u8>,
    /// The digits behind a `%`.
    pub digits: Option<Seq<u8>>,
}

/// The plain text of a format becomes a part.
fn flushed(done: Seq<Piece>, plain: Seq<u8>) -> Result<Seq<Piece>, Refusal>
    ensures ok { IfOk result (λ ps. ps ≡ done ++ formats.flushed plain []) }
    ensures err { IfErr result (λ e. e ≡ Memory) }
{
    let mut parts = done;
    if !plain.bytes().is_empty() {
        parts.push(Piece::Plain(plain))?;
    }
    Ok(parts)
}

/// A byte of plain text, or the `%` of a field.
#[tactic(auto, using(crate::proofs::FormatLaws::one_more))]
fn plain_byte(alloc: Global, done: Seq<Piece>, plain: Seq<u8>, byte: u8) -> Result<Reading, Refusal>
    ensures ok { IfOk result (λ r. (cs : List ℕ) → read_on r cs ≡ read_behind done plain none (byte ∷ cs)) }
    ensures err { IfErr result (λ e. e ≡ Memory) }
{
    if byte == b'%' {
        return Ok(Reading {
            done,
            plain,
            digits: Some(Seq::new(alloc)),
        });
    }
    let mut plain = plain;
    plain.push(byte)?;
    Ok(Reading {
        done,
        plain,
        digits: None,
    })
}

/// The `%` of `%%`.
fn percent_byte(
    alloc: Global,
    done: Seq<Piece>,
    plain: Seq<u8>,
    digits: &[u8],
) -> Result<Option<Reading>, Refusal>
    ensures ok { IfOk result (λ r. (cs : List ℕ) → read_if r cs ≡ read_behind done plain (some digits.now) (37 ∷ cs)) }
    ensures err { IfErr result (λ e. e ≡ Memory) }
{
    let Some(pad) = pad_of(digits) else {
        return Ok(None);
    };
    let mut plain = plain;
    let bytes = percent(alloc, pad)?;
    plain.push_all(bytes.bytes())?;
    Ok(Some(Reading {
        done,
        plain,
        digits: None,
    }))
}

/// The letter of a field.
#[tactic(auto, using(crate::proofs::FormatLaws::field_behind))]
fn letter(
    alloc: Global,
    done: Seq<Piece>,
    plain: Seq<u8>,
    digits: &[u8],
    byte: u8,
) -> Result<Option<Reading>, Refusal>
    ensures ok { IfOk result (λ r. (cs : List ℕ) → read_if r cs ≡ letter_behind done plain digits.now byte cs) }
    ensures err { IfErr result (λ e. e ≡ Memory) }
{
    let Some(field) = spec_of(field_of(byte), pad_of(digits)) else {
        return Ok(None);
    };
    let mut done = flushed(done, plain)?;
    done.push(field)?;
    Ok(Some(Reading {
        done,
        plain: Seq::new(alloc),
        digits: None,
    }))
}

/// A byte of a field that is begun.
fn field_byte(
    alloc: Global,
    done: Seq<Piece>,
    plain: Seq<u8>,
    digits: Seq<u8>,
    byte: u8,
) -> Result<Option<Reading>, Refusal>
    ensures ok { IfOk result (λ r. (cs : List ℕ) → read_if r cs ≡ read_behind done plain (some digits) (byte ∷ cs)) }
    ensures err { IfErr result (λ e. e ≡ Memory) }
{
    if byte.is_ascii_digit() {
        let mut digits = digits;
        digits.push(byte)?;
        return Ok(Some(Reading {
            done,
            plain,
            digits: Some(digits),
        }));
    }
    if byte == b'%' {
        percent_byte(alloc, done, plain, digits.bytes())
    } else {
        letter(alloc, done, plain, digits.bytes(), byte)
    }
}

/// One more byte; None where it is none of a format.
fn read_byte(alloc: Global, reading: Reading, byte: u8) -> Result<Option<Reading>, Refusal>
    ensures ok { IfOk result (λ r. (cs : List ℕ) → read_if r cs ≡ read_on reading (byte ∷ cs)) }
    ensures err { IfErr result (λ e. e ≡ Memory) }
{
    let Reading {
        done,
        plain,
        digits,
    } = reading;
    match digits {
        None => {
            let reading = plain_byte(alloc, done, plain, byte)?;
            Ok(Some(reading))
        }
        Some(digits) => field_byte(alloc, done, plain, digits, byte),
    }
}

/// The parts of a format; None where it ends in a field.
fn finished(reading: Reading) -> Result<Option<Seq<Piece>>, Refusal>
    ensures ok { IfOk result (λ ps. ps ≡ read_on reading []) }
    ensures err { IfErr result (λ e. e ≡ Memory) }
{
    match reading.digits {
        None => {
            let parts = flushed(reading.done, reading.plain)?;
            Ok(Some(parts))
        }
        Some(_) => Ok(None),
    }
}

/// The parts of a format (21.2.1.1 to 21.2.1.3); None where a field is unknown.
pub fn format(alloc: Global, text: &[u8]) -> Result<Option<Seq<Piece>>, Refusal>
    ensures ok { IfOk result (λ ps. ps ≡ formats.parts_from [] none text.now) }
    ensures err { IfErr result (λ e. e ≡ Memory) }
{
    let mut reading = Reading {
        done: Seq::new(alloc),
        plain: Seq::new(alloc),
        digits: None,
    };
    for byte in text {
        match read_byte(alloc, reading, *byte)? {
            Some(next) => reading = next,
            None => return Ok(None),
        }
    }
    finished(reading)
}
