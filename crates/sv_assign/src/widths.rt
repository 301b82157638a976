// Vectors as values of a type (IEEE 1800-2017, 10.7).
ghost use Rattle.std.specs.Prelude.{◌≡◌, IfOk};
ghost use Rattle.sv_flat.specs.Eval as eval;
ghost use Rattle.sv_flat.specs.Targets.{target_width};

use sv_flat::{DataType, Lvalue};
use sv_value::{Bits, Integral, NoMemory, Plain, WIDEST};

/// The width of a type, 0 where it has none.
pub fn type_width(ty: DataType) -> u32
    ensures { result ≡ eval.type_width ty }
{
    match ty {
        DataType::Plain(Plain::Integral(integral)) => integral.width,
        _ => 0,
    }
}

/// The width of a target.
pub fn target_width(target: &Lvalue) -> u32
    ensures { result ≡ target_width target.now }
{
    match &target.part {
        Some(part) => part.width,
        None => type_width(target.ty),
    }
}

/// A vector as one of an integral type. Memory is wanting for widths that no vector has.
pub fn as_integral(to: Integral, value: Bits) -> Result<Bits, NoMemory>
    ensures { IfOk result (λ x. x ≡ eval.as_integral to value) }
{
    if to.width < 1 || WIDEST < to.width {
        return Err(NoMemory::Memory);
    }
    if to.four_state {
        Ok(value.resize(to.width, to.signed))
    } else {
        Ok(value.to_two_state().resize(to.width, to.signed))
    }
}
