// What fields of `$sformatf` print (IEEE 1800-2017, 21.2.1 and 21.3.3).
ghost use Rattle.std.specs.Prelude.{◌≡◌, ◌*ℤ◌, pos, IfOk, IsTrue};
ghost use Rattle.sv_value.specs.Digits as digits;
ghost use Rattle.sv_value.specs.Operators.{integer};
ghost use Rattle.sv_value.specs.Vector.{is_known};

use crate::vectors::is_known;
use std::alloc::Global;
use sv_digits::print;
use sv_value::{Bits, FormatField, Integer, NoMemory, Pad, Radix, Text, Val};

/// A text behind blanks; without a width it is `full` long.
fn spaced(alloc: Global, full: usize, pad: Pad, text: &[u8]) -> Result<Text, NoMemory>
    ensures { IfOk result (λ t. t ≡ digits.spaced full pad text.now) }
{
    let width = match pad {
        Pad::Full => full,
        Pad::Least => 0,
        Pad::Wide(width) => width as usize,
    };
    let mut whole = Text::new(alloc);
    whole.push_copies(b' ', width.saturating_sub(text.len()))?;
    whole.push_all(text)?;
    Ok(whole)
}

/// The decimal digits of a number.
fn decimal(alloc: Global, number: u128) -> Result<Text, NoMemory>
    ensures { IfOk result (λ t. t ≡ digits.decimal number) }
{
    let digits = format!(in alloc; "{number}")?;
    let mut text = Text::new(alloc);
    text.push_all(digits.as_bytes())?;
    Ok(text)
}

/// A known time, in ticks. Memory is wanting where a unit has no tick.
fn ticks_of(alloc: Global, ticks: u64, value: Bits) -> Result<Text, NoMemory>
    requires { IsTrue (is_known value.symbols) }
    ensures { IfOk result (λ t. t ≡ digits.signed_decimal (integer value *ℤ pos ticks)) }
{
    if ticks == 0 {
        return Err(NoMemory::Memory);
    }
    let number = Integer::of(value, value.signed());
    let size = (number.size() as u128) * (ticks as u128);
    let digits = decimal(alloc, size)?;
    if number.is_negative() {
        let mut text = Text::new(alloc);
        text.push(b'-')?;
        text.push_all(digits.bytes())?;
        return Ok(text);
    }
    Ok(digits)
}

/// The shortest text of a time.
fn shortest_time(alloc: Global, ticks: u64, value: Bits) -> Result<Text, NoMemory>
    ensures { IfOk result (λ t. digits.printed_time ticks Pad.Least value ≡ t) }
{
    if is_known(value) {
        ticks_of(alloc, ticks, value)
    } else {
        print(alloc, value, Radix::Dec, Pad::Least)
    }
}

/// `%t`
fn printed_time(alloc: Global, ticks: u64, pad: Pad, value: Bits) -> Result<Text, NoMemory>
    ensures { IfOk result (λ t. t ≡ digits.printed_time ticks pad value) }
{
    let shortest = shortest_time(alloc, ticks, value)?;
    spaced(alloc, 20, pad, shortest.bytes())
}

/// The byte of the low 8 symbols.
fn byte_of(value: Bits) -> u8
    ensures { result ≡ digits.byte_of value.symbols }
{
    let two_state = value.to_two_state();
    let width = two_state.width();
    let (byte, _) = two_state.slice(0, width.min(8)).words();
    byte as u8
}

/// `%c`
fn printed_character(alloc: Global, pad: Pad, value: Bits) -> Result<Text, NoMemory>
    ensures { IfOk result (λ t. t ≡ digits.printed_bits FormatField.Character pad 0 value) }
{
    let byte = [byte_of(value)];
    spaced(alloc, 1, pad, &byte)
}

/// The text of a field for a vector.
fn printed_bits(
    alloc: Global,
    field: FormatField,
    pad: Pad,
    ticks: u64,
    value: Bits,
) -> Result<Text, NoMemory>
    ensures { IfOk result (λ t. t ≡ digits.printed_bits field pad ticks value) }
{
    match field {
        FormatField::Number(radix) => print(alloc, value, radix, pad),
        FormatField::Time => printed_time(alloc, ticks, pad, value),
        FormatField::Character => printed_character(alloc, pad, value),
        FormatField::Text => Ok(Text::new(alloc)),
    }
}

/// The text of a field for a value; a unit of time has so many ticks.
pub fn printed_field(
    alloc: Global,
    field: FormatField,
    pad: Pad,
    ticks: u64,
    value: &Val,
) -> Result<Text, NoMemory>
    ensures { IfOk result (λ t. t ≡ digits.printed_field field pad ticks value.now) }
{
    match value {
        Val::Bits(bits) => printed_bits(alloc, field, pad, ticks, *bits),
        Val::Text(text) => spaced(alloc, 0, pad, text.bytes()),
        Val::Object(_) => Ok(Text::new(alloc)),
        Val::Event(_) => Ok(Text::new(alloc)),
    }
}
