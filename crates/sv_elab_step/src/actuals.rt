// Arguments, as they are taken (IEEE 1800-2017, 13.5).
ghost use Rattle.std.specs.Prelude.{◌≡◌, option_map, IfOk, IfErr};
ghost use Rattle.sv_tree.specs.View as view;
ghost use Rattle.sv_names.specs.declared.refusal.Refusal.TheVariants.{Memory};
ghost use Rattle.sv_names.specs.Expressions as expressions;

use std::alloc::Global;
use sv_elab_operator::text_of;
use sv_names::Refusal;
use sv_tree::Expr;
use sv_value::Text;

/// Whether the first argument is taken as a target; those behind the list are not.
pub fn first_output(outputs: &[bool]) -> bool
    ensures { result ≡ expressions.first_output outputs.now }
{
    match outputs {
        [] => false,
        [first, ..] => *first,
    }
}

/// The same of the arguments behind it.
pub fn more_outputs(outputs: &[bool]) -> &[bool]
    ensures { result.now ≡ expressions.more_outputs outputs.now }
{
    match outputs {
        [] => &[],
        [_, rest @ ..] => rest,
    }
}

/// The bytes of an argument that is a string literal.
pub fn literal_text(alloc: Global, e: &Expr) -> Result<Option<Text>, Refusal>
    ensures ok { IfOk result (λ t. t ≡ expressions.literal_text (view.expr e.now)) }
    ensures err { IfErr result (λ e. e ≡ Memory) }
{
    match e {
        Expr::Text(_, text) => {
            let bytes = text_of(alloc, text.bytes())?;
            Ok(Some(bytes))
        }
        _ => Ok(None),
    }
}
