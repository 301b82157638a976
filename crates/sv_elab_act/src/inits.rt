// What is given to variables (IEEE 1800-2017, 6.8, 7.5.1 and 8.7).
ghost use Rattle.std.specs.Prelude.{◌≡◌, option_map, IfOk, OnOk};
ghost use Rattle.sv_tree.specs.StmtView as view;
ghost use Rattle.sv_tree.specs.View as tree_view;
ghost use Rattle.sv_names.specs.Subroutines as subroutines;
ghost use Rattle.sv_names.specs.Writers as writers;
ghost use Rattle.sv_names.specs.Views.{around_in};
ghost use Rattle.sv_elab_touch.specs.Touched.{Touched};
ghost use Rattle.sv_elab_act.specs.Acts as acts;

use std::alloc::Global;
use sv_elab_touch::{add_actuals, add_expr};
use sv_elab_writers::Touch;
use sv_names::{Around, Checked, Path, Ty, copy_path};
use sv_tree::{Expr, Init};
use sv_value::{NoMemory, Seq, Text};

/// Appends what an expression that may be left out writes and calls.
#[tactic(auto, using(sv_elab_touch::proofs::TouchedLaws::touched_none))]
pub(crate) fn add_optional(
    alloc: Global,
    e: &Option<Expr>,
    around: &Around,
    touches: &mut Seq<Touch>,
) -> Result<(), NoMemory>
    ensures { OnOk result (Touched touches.old touches.new
        (writers.optional_touches (around_in around.now) (option_map tree_view.expr e.now))) }
{
    match e {
        None => Ok(()),
        Some(e) => add_expr(alloc, e, around, touches),
    }
}

/// The path of the constructor of a class.
pub fn constructor_path(alloc: Global, class: &[Text]) -> Result<Path, NoMemory>
    ensures { IfOk result (λ p. p ≡ subroutines.constructor_path class.now) }
{
    let mut path = copy_path(alloc, class)?;
    let mut name = Text::new(alloc);
    name.push_all(b"new")?;
    path.push(name)?;
    Ok(path)
}

/// Appends a call of the constructor of a class.
#[tactic(auto, using(sv_elab_touch::proofs::TouchedLaws::touched_one))]
fn add_constructor(alloc: Global, class: &[Text], touches: &mut Seq<Touch>) -> Result<(), NoMemory>
    ensures { OnOk result (Touched touches.old touches.new (acts.constructed class.now)) }
{
    let path = constructor_path(alloc, class)?;
    touches.push(Touch::Calls(path))
}

/// Appends a call of the constructor of the class of a target.
#[tactic(auto, using(sv_elab_touch::proofs::TouchedLaws::touched_none))]
fn add_new(alloc: Global, ty: &Checked<Ty>, touches: &mut Seq<Touch>) -> Result<(), NoMemory>
    ensures { OnOk result (Touched touches.old touches.new (writers.new_touches ty.now)) }
{
    match ty {
        Checked::Good(Ty::Class(class)) => add_constructor(alloc, class.as_slice(), touches),
        _ => Ok(()),
    }
}

/// Appends what is given to a variable of a type.
#[tactic(auto, using(sv_elab_touch::proofs::TouchedLaws::touched_none, sv_elab_touch::proofs::TouchedLaws::touched_both))]
pub fn add_init(
    alloc: Global,
    ty: &Checked<Ty>,
    init: &Init,
    around: &Around,
    touches: &mut Seq<Touch>,
) -> Result<(), NoMemory>
    ensures { OnOk result (Touched touches.old touches.new
        (writers.init_touches (around_in around.now) ty.now (view.init init.now))) }
{
    match init {
        Init::Value(e) => add_expr(alloc, e, around, touches),
        Init::New(_, actuals) => {
            add_actuals(alloc, actuals, around, touches)?;
            add_new(alloc, ty, touches)
        }
        Init::Copy(_, _) => Ok(()),
        Init::Array { size, source, .. } => {
            add_expr(alloc, size, around, touches)?;
            add_optional(alloc, source, around, touches)
        }
    }
}
