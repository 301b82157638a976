// The result variable of a function, as `return` writes it (IEEE 1800-2017, 12.8 and 13.4.1).
ghost use Rattle.std.specs.Prelude.{◌≡◌, map, option_map, IfOk, IfErr};
ghost use Rattle.sv_names.specs.declared.refusal.Refusal.TheVariants.{Memory};
ghost use Rattle.sv_names.specs.Statements as statements;
ghost use Rattle.sv_names.specs.Views.{around_in};
ghost use Rattle.sv_elab_flow.specs.Results as results;
ghost use Rattle.sv_elab_flow.specs.Results.{result_in};

use std::alloc::Global;
use sv_elab_value::pure;
use sv_flat::{Base, Lvalue};
use sv_names::{Around, Checked, Hoisted, Known, Named, Refusal, ResultVariable, Scope, same_path};
use sv_value::{Place, Seq, Text};

/// The result variable of a function, where it is found.
#[derive(Clone, Copy)]
pub struct ResultFound<'a> {
    /// How many activations further out it stands.
    pub up: u32,
    /// Its place there.
    pub place: u32,
    /// The variable, as it is declared.
    pub variable: &'a ResultVariable,
}

/// The result variable among the declarations of a scope, of which the first stands at this place.
#[tactic(auto, using(crate::proofs::ResultLaws::this_result, crate::proofs::ResultLaws::later_result))]
fn result_variable(up: u32, place: u32, known: &[Known]) -> Option<ResultFound<'_>>
    ensures { option_map result_in result ≡ statements.result_variable up place known.now }
{
    match known {
        [] => None,
        [first, rest @ ..] => match &first.value {
            Checked::Good(Named::Itself(_, variable)) => Some(ResultFound {
                up,
                place,
                variable,
            }),
            _ => result_variable(up, place.saturating_add(first.size()), rest),
        },
    }
}

/// The result variable of the function around, in scopes from the nearest one outward.
fn result_from<'a>(up: u32, function: &[Text], scopes: &[&'a Scope]) -> Option<ResultFound<'a>>
    ensures { option_map result_in result ≡ statements.result_from up function.now (map (λ s. s.now) scopes.now) }
{
    match scopes {
        [] => None,
        [nearest, outer @ ..] => {
            let scope: &'a Scope = *nearest;
            let further = if scope.enters {
                up.saturating_add(1)
            } else {
                up
            };
            if !same_path(function, scope.path.as_slice()) {
                return result_from(further, function, outer);
            }
            match result_variable(up, 0, scope.known.as_slice()) {
                Some(found) => Some(found),
                None => result_from(further, function, outer),
            }
        }
    }
}

/// A result variable as a target.
fn result_lvalue(around: &Around, at: Place, found: ResultFound) -> Lvalue
    ensures { result ≡ results.result_lvalue (around_in around.now) at found.entry }
{
    match found.variable {
        ResultVariable::Object(path, ty) => Lvalue {
            at,
            through: None,
            base: Base::Object(around.numbers.object(path.as_slice())),
            part: None,
            ty: around.numbers.data_of(ty),
        },
        ResultVariable::Local { ty, .. } => Lvalue {
            at,
            through: None,
            base: Base::Local {
                up: found.up.saturating_add(around.up),
                place: found.place,
            },
            part: None,
            ty: around.numbers.data_of(ty),
        },
    }
}

/// The result variable of a function as a target.
#[tactic(auto, using(crate::proofs::ResultLaws::targets_by))]
pub fn result_targets(
    alloc: Global,
    at: Place,
    function: &[Text],
    around: &Around,
) -> Result<Hoisted<Seq<Lvalue>>, Refusal>
    ensures ok { IfOk result (λ ls. ls ≡ statements.result_targets (around_in around.now) at function.now) }
    ensures err { IfErr result (λ e. e ≡ Memory) }
{
    match result_from(0, function, around.scopes) {
        None => Ok(pure(alloc, Seq::new(alloc))),
        Some(found) => {
            let mut targets = Seq::new(alloc);
            targets.push(result_lvalue(around, at, found))?;
            Ok(pure(alloc, targets))
        }
    }
}
