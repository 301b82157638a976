// Names alone, and variables by their declarations (IEEE 1800-2017, 6.21 and 12.7): E6, E7, E42.
ghost use Rattle.std.specs.Prelude.{◌≡◌, IfOk, IfErr};
ghost use Rattle.sv_tree.specs.Expr as tree;
ghost use Rattle.sv_tree.specs.declared.expr.Root.TheVariants as root;
ghost use Rattle.sv_names.specs.declared.refusal.Refusal.TheVariants.{Memory};
ghost use Rattle.sv_names.specs.Blocks as blocks;
ghost use Rattle.sv_names.specs.Checked.{◌▷◌};
ghost use Rattle.sv_names.specs.Expressions as expressions;
ghost use Rattle.sv_names.specs.Named.{at_level};
ghost use Rattle.sv_names.specs.Things as things;
ghost use Rattle.sv_names.specs.Views.{around_in};
ghost use Rattle.sv_elab_write.specs.Variables as variables;

use std::alloc::Global;
use sv_elab_expr::named;
use sv_elab_expr::sv_elab_name::{local_typed, object_typed};
use sv_elab_expr::sv_elab_select::Spot;
use sv_names::{Around, Begin, Checked, Fault, Named, Refusal, Typed, judged};
use sv_tree::{Name, Root};
use sv_value::{Place, Seq};

/// A name alone, as a value.
pub fn value_of_name(alloc: Global, name: &Name, around: &Around) -> Result<Checked<Typed>, Refusal>
    ensures ok { IfOk result (λ c. c
        ≡ expressions.expr (around_in around.now) (tree.Post (root.Plain name.now) tree.NoSuffix)) }
    ensures err { IfErr result (λ e. e ≡ Memory) }
{
    let text = name.text.share()?;
    let root = Root::Plain(Name { at: name.at, text });
    judged(named(alloc, &root, &[], around))
}

// ---- variables

/// A variable as a value and as a target, by what its declaration stands for; none where that is no variable.
#[tactic(auto, using(crate::proofs::VariableLaws::no_variable))]
fn variable_typed(
    alloc: Global,
    around: &Around,
    at: Place,
    up: u32,
    place: u32,
    named: &Named,
) -> Result<Option<Typed>, Refusal>
    ensures ok { IfOk result (λ t. t ≡ things.variable_typed (around_in around.now) at (at_level up place named.now)) }
    ensures err { IfErr result (λ e. e ≡ Memory) }
{
    match named {
        Named::Variable(path, ty) => {
            let begins = Begin::Variable(path.share()?);
            let variable = object_typed(alloc, around, at, path.as_slice(), ty, begins)?;
            Ok(Some(variable))
        }
        Named::Local { ty, .. } => {
            let begins = Begin::InActivation;
            let variable = local_typed(alloc, around, at, up, place, ty, begins)?;
            Ok(Some(variable))
        }
        _ => Ok(None),
    }
}

/// E42: a variable that is given its first value; no fixed array is.
fn initialized(alloc: Global, at: Place, variable: Typed) -> Result<Checked<Seq<Spot>>, Refusal>
    ensures ok { IfOk result (λ c. c ≡ variables.initialized at variable) }
    ensures err { IfErr result (λ e. e ≡ Memory) }
{
    if variable.ty.is_fixed() {
        return Ok(Checked::Broken(Fault { at, rule: 42 }));
    }
    let mut spots = Seq::new(alloc);
    spots.push((at, variable))?;
    Ok(Checked::Good(spots))
}

/// E7, E42: what a declaration stands for, as a target.
#[tactic(auto, using(crate::proofs::VariableLaws::spot_by))]
fn variable_spot(
    alloc: Global,
    around: &Around,
    at: Place,
    up: u32,
    place: u32,
    named: &Named,
) -> Result<Checked<Seq<Spot>>, Refusal>
    ensures ok { IfOk result (λ c. c ≡ blocks.variable_spot (around_in around.now) at (at_level up place named.now)) }
    ensures err { IfErr result (λ e. e ≡ Memory) }
{
    match variable_typed(alloc, around, at, up, place, named)? {
        None => Ok(Checked::Broken(Fault { at, rule: 7 })),
        Some(variable) => initialized(alloc, at, variable),
    }
}

/// The variable that the nearest scope declares by a name, as a target. E6: there is none; E7: it is no variable; E42: it is a fixed array.
pub fn declared_spot(
    alloc: Global,
    around: &Around,
    at: Place,
    name: &Name,
) -> Result<Checked<Seq<Spot>>, Refusal>
    ensures ok { IfOk result (λ c. c ≡ (blocks.declared_variable (around_in around.now) name.now
        ▷ blocks.variable_spot (around_in around.now) at)) }
    ensures err { IfErr result (λ e. e ≡ Memory) }
{
    match around.find(name.text.bytes()) {
        None => Ok(Checked::Broken(Fault {
            at: name.at,
            rule: 6,
        })),
        Some(found) => match &found.known.value {
            Checked::Good(named) => {
                variable_spot(alloc, around, at, found.up, found.place, named)
            }
            Checked::Broken(f) => Ok(Checked::Broken(*f)),
        },
    }
}
