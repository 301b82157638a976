// Pieces of vectors of any width, which are kept in fewer symbols (IEEE 1800-2017, 10.7).
ghost use Rattle.std.specs.Prelude.{◌≡◌, ◌+◌, ◌≤◌, ◌<◌, ℕ, drop, length, replicate, take, IfOk};
ghost use Rattle.sv_value.specs.declared.word.TheConstants.{WIDEST};
ghost use Rattle.sv_value.specs.Vector.{filling, resized, unsigned};

use sv_value::{Bits, NoMemory, Sym, WIDEST};

/// So many copies of a symbol.
#[tactic(auto, using(crate::proofs::PieceLaws::copies_is))]
fn copies(width: u32, symbol: Sym) -> Bits
    requires at_least_one { 1 ≤ width }
    requires fits { width ≤ WIDEST }
    ensures { result ≡ unsigned (replicate width symbol) }
{
    Bits::one_bit(symbol).resize(1, true).resize(width, false)
}

/// The symbol that a longer vector is filled with.
fn filling(value: Bits) -> Sym
    ensures { result ≡ filling value }
{
    if value.signed() {
        value.bit(value.width() - 1)
    } else {
        Sym::Zero
    }
}

/// The symbols from a place on, extended to a width.
fn tail(value: Bits, low: u32, width: u32) -> Bits
    requires at_least_one { 1 ≤ width }
    requires fits { width ≤ WIDEST }
    requires within { low < length value.symbols }
    ensures { (w : ℕ) → low + width ≤ w → length value.symbols ≤ w → result ≡ unsigned (take width (drop low (resized w value))) }
{
    let own = value.width();
    value
        .slice(low, own - low)
        .resize(own - low, value.signed())
        .resize(width, false)
}

/// So many symbols from a place on, of a vector that is extended far enough. Memory is wanting for widths that no vector has.
pub fn piece(value: Bits, low: u64, width: u32) -> Result<Bits, NoMemory>
    ensures { (w : ℕ) → low + width ≤ w → length value.symbols ≤ w → IfOk result (λ p. p ≡ unsigned (take width (drop low (resized w value)))) }
{
    if width < 1 || WIDEST < width {
        return Err(NoMemory::Memory);
    }
    if low < u64::from(value.width()) {
        Ok(tail(value, low as u32, width))
    } else {
        Ok(copies(width, filling(value)))
    }
}
