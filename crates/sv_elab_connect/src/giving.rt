// Targets that get a value again and again (IEEE 1800-2017, 10.3): E16, E17.
ghost use Rattle.std.specs.Prelude.{◌≡◌, List, [], ◌∷◌, ◌++◌, length, IfOk, IfErr, OnOk};
ghost use Rattle.sv_flat.specs.declared.class.Routine.{Routine as routine};
ghost use Rattle.sv_names.specs.declared.checked.Checked.{Checked as checked};
ghost use Rattle.sv_names.specs.declared.typed.Typed.{Typed as typed};
ghost use Rattle.sv_tree.specs.Expr as tree;
ghost use Rattle.sv_tree.specs.View as view;
ghost use Rattle.sv_names.specs.Checked.{given};
ghost use Rattle.sv_names.specs.declared.refusal.Refusal.TheVariants.{Memory};
ghost use Rattle.sv_names.specs.Code as code;
ghost use Rattle.sv_names.specs.Connections as connections;
ghost use Rattle.sv_names.specs.Given.{Gives};
ghost use Rattle.sv_names.specs.Targets as targets;
ghost use Rattle.sv_names.specs.Types.{Path as path};
ghost use Rattle.sv_names.specs.Values as values;
ghost use Rattle.sv_names.specs.Views.{around_in};
ghost use Rattle.sv_elab_drive.specs.Making.{EmitsProcess, EmitsAny};

use std::alloc::Global;
use sv_elab_assign::value_given;
use sv_elab_drive::{all_driving, assigning, nets_of};
use sv_elab_drives::Drives;
use sv_elab_expr::place_of;
use sv_elab_expr::sv_elab_select::Spot;
use sv_flat::{Form, Process, ProcessKind, Routine};
use sv_names::{Around, Hoisted, Path, Refusal, Typed, both};
use sv_tree::Expr;
use sv_value::{Place, Seq};

/// A process with this form, which drives these nets.
fn put_process(
    alloc: Global,
    around: &Around,
    at: Place,
    kind: ProcessKind,
    form: Hoisted<Form>,
    nets: Seq<Path>,
    before: &mut Drives,
    routines: &mut Seq<Routine>,
) -> Result<Process, Refusal>
    ensures ok { IfOk result (λ p. p
        ≡ ((connections.assigning (around_in around.now) at kind (code.single at form)).make (length routines.old)).0) }
    ensures added { OnOk result (routines.new
        ≡ routines.old ++ ((connections.assigning (around_in around.now) at kind (code.single at form)).make (length routines.old)).1) }
    ensures drives { OnOk result (before.new ≡ before.old ++ nets) }
    ensures err { IfErr result (λ e. e ≡ Memory) }
{
    before.append(alloc, nets)?;
    assigning(alloc, around, at, kind, form, routines)
}

/// The process that gives a value to a target, where both break no rule.
fn made(
    alloc: Global,
    around: &Around,
    at: Place,
    kind: ProcessKind,
    spots: Seq<Spot>,
    place: Place,
    value: Typed,
    before: &mut Drives,
    routines: &mut Seq<Routine>,
) -> Result<Process, Refusal>
    ensures { EmitsProcess before.old before.new routines.old routines.new result
        (given (connections.made_of (around_in around.now) at kind spots)
        (values.assigned (around_in around.now) (targets.type_of_target spots) place value)) }
{
    let nets = nets_of(alloc, spots.as_slice())?;
    let driving = all_driving(alloc, before, spots)?;
    match value_given(alloc, around, None, place, driving, value) {
        Ok(form) => put_process(alloc, around, at, kind, form, nets, before, routines),
        Err(e) => Err(e),
    }
}

/// The process that gives a value, which is that of this expression or is given to it, to a target again and again. The nets that it drives are
/// appended to those that are driven before it, and what its body is to the routines. E16 and E17: the value does not fit by type.
pub fn continuous(
    alloc: Global,
    around: &Around,
    at: Place,
    kind: ProcessKind,
    target: Result<Seq<Spot>, Refusal>,
    of: &Expr,
    value: Result<Typed, Refusal>,
    before: &mut Drives,
    routines: &mut Seq<Routine>,
) -> Result<Process, Refusal>
    ensures { (t : checked (List targets.Spot)) (v : checked typed) → Gives target t → Gives value v
        → EmitsProcess before.old before.new routines.old routines.new result
        (connections.continuous (around_in around.now) at kind t (tree.place_of (view.expr of.now)) v) }
{
    let place = place_of(of);
    match both(target, value) {
        Ok((spots, value)) => made(
            alloc, around, at, kind, spots, place, value, before, routines,
        ),
        Err(e) => Err(e),
    }
}

/// A process where there is one, as one that may be left out.
pub(crate) fn one_made(process: Result<Process, Refusal>) -> Result<Option<Process>, Refusal>
    ensures { (b b' : List path) (rs rs' : List routine) (c : checked connections.Made) → EmitsProcess b b' rs rs' process c
        → EmitsAny b b' rs rs' result (given (λ m. m ∷ []) c) }
{
    match process {
        Ok(process) => Ok(Some(process)),
        Err(e) => Err(e),
    }
}
