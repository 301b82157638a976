// What functions give (IEEE 1800-2017, 13.4.1).
ghost use Rattle.std.specs.Prelude.{◌≡◌, IfOk};
ghost use Rattle.sv_tree.specs.StmtView.{implied as implied_in};
ghost use Rattle.sv_tree.specs.UnitView.{head as head_in};
ghost use Rattle.sv_names.specs.Declarations as declarations;
ghost use Rattle.sv_names.specs.Entries as entries;
ghost use Rattle.sv_names.specs.Scopes as scopes;
ghost use Rattle.sv_names.specs.Views.{around_in};

use std::alloc::Global;
use sv_elab_declare::is_constructor;
use sv_elab_signal::{known, with_scope};
use sv_elab_type::implied;
use sv_names::{Around, Checked, Scope, Ty};
use sv_tree::{Head, ImpliedType, Returns};
use sv_value::NoMemory;

/// Whether a head is that of a task.
pub(crate) fn is_task(of: &Head) -> bool
    ensures { result ≡ entries.is_task (head_in of.now) }
{
    matches!(&of.returns, Returns::Task)
}

/// A type that is written in a scope, or logic of one bit where none is written.
pub(crate) fn type_within(
    alloc: Global,
    around: &Around,
    scope: &Scope,
    ty: &ImpliedType,
) -> Result<Checked<Ty>, NoMemory>
    ensures { IfOk result (λ t. t
        ≡ declarations.implied (scopes.within scope.now (around_in around.now)) scope.now.path (implied_in ty.now)) }
{
    let seen = with_scope(alloc, scope, around.scopes)?;
    let inside = Around {
        scopes: seen.as_slice(),
        ..*around
    };
    known(implied(alloc, &inside, scope.path.as_slice(), ty))
}

/// The type of what a subroutine gives, whose scope this is: a constructor gives nothing.
pub(crate) fn result_within(
    alloc: Global,
    around: &Around,
    scope: &Scope,
    of: &Head,
) -> Result<Checked<Ty>, NoMemory>
    ensures { IfOk result (λ t. t
        ≡ scopes.result_of_head (scopes.within scope.now (around_in around.now)) scope.now.path (head_in of.now)) }
{
    match &of.returns {
        Returns::Value(ty) => {
            if is_constructor(of) {
                return Ok(Checked::Good(Ty::Nothing));
            }
            type_within(alloc, around, scope, ty)
        }
        _ => Ok(Checked::Good(Ty::Nothing)),
    }
}
