// What the drivers of a net give.
ghost use Rattle.std.specs.Prelude.{◌≡◌, ◌≤◌, false, replicate};
ghost use Rattle.std.specs.List.{AllByRecursion};
ghost use Rattle.sv_value.specs.declared.word.Sym.TheVariants.{Z};
ghost use Rattle.sv_value.specs.declared.word.TheConstants.{WIDEST};
ghost use Rattle.sv_value.specs.Vector.{vector};
ghost use Rattle.sv_flat.specs.State.{net_value};
ghost use Rattle.sv_store.specs.Objects.{IsWide};

use sv_arith::resolve_bits;
use sv_value::{Bits, Word};

/// A vector of z, which is what a driver gives before its first value.
pub fn undriven(width: u32) -> Bits
    requires at_least_one { 1 ≤ width }
    requires fits { width ≤ WIDEST }
    ensures { result ≡ vector false (replicate width Z) }
{
    Bits::truncated(width, false, Word::MAX, Word::MAX)
}

/// The value of a net: what its drivers resolve to, from z on (IEEE 1800-2017, 6.6.1).
pub fn resolved_value(width: u32, drivers: &[Bits]) -> Bits
    requires at_least_one { 1 ≤ width }
    requires fits { width ≤ WIDEST }
    requires each_wide { AllByRecursion (IsWide width) drivers.now }
    ensures { result ≡ net_value width drivers.now }
{
    let mut value = undriven(width);
    for driver in drivers {
        value = resolve_bits(value, *driver);
    }
    value
}
