// The result of a function, by the variable that it is (IEEE 1800-2017, 13.4.1).
ghost use Rattle.std.specs.Prelude.{◌≡◌};
ghost use Rattle.sv_names.specs.Subroutines as subroutines;
ghost use Rattle.sv_names.specs.Views.{around_in};
ghost use Rattle.sv_elab_subroutine.specs.Results as words;

use sv_flat::{Direction as Way, Formal, Variable};
use sv_names::{Around, Checked, Known, Named, ResultVariable, Scope};

/// The result of a function, where the variable of an activation stands at this place.
fn result_of(around: &Around, place: u32, variable: &ResultVariable) -> Formal
    ensures { result ≡ words.result_of (around_in around.now) place variable.now }
{
    match variable {
        ResultVariable::Object(path, ty) => Formal {
            direction: Way::Output,
            variable: Variable::Object(around.numbers.object(path.as_slice())),
            ty: around.numbers.data_of(ty),
        },
        ResultVariable::Local { ty, .. } => Formal {
            direction: Way::Output,
            variable: Variable::Local(place),
            ty: around.numbers.data_of(ty),
        },
    }
}

/// The result of a function by a declaration of its scope, where that is the function itself.
fn result_known(around: &Around, place: u32, known: &Known) -> Option<Formal>
    ensures { result ≡ words.result_known (around_in around.now) place known.now.value }
{
    match &known.value {
        Checked::Good(Named::Itself(_, variable)) => Some(result_of(around, place, variable)),
        _ => None,
    }
}

/// The result of a function in its scope.
pub fn result_formal(around: &Around, scope: &Scope) -> Option<Formal>
    ensures { result ≡ subroutines.result_formal (around_in around.now) scope.now }
{
    let mut place: u32 = 0;
    let list = scope.known.as_slice();
    for known in list {
        match result_known(around, place, known) {
            Some(formal) => return Some(formal),
            None => {}
        }
        place = place.saturating_add(known.size());
    }
    None
}
