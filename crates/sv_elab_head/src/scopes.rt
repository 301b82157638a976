// The scope of a subroutine, in the rounds of its unit or after them (IEEE 1800-2017, 8.6, 13.3, 13.4 and 23.9).
ghost use Rattle.std.specs.Prelude.{◌≡◌, Some, map, IfOk};
ghost use Rattle.sv_tree.specs.UnitView.{head as head_in, routine as routine_in};
ghost use Rattle.sv_names.specs.Entries as entries;
ghost use Rattle.sv_names.specs.Views.{around_in};
ghost use Rattle.sv_elab_scope.specs.Stages.{is_last};
ghost use Rattle.sv_elab_scope.specs.Views.{entry_in};
ghost use Rattle.sv_elab_declare.specs.Alone.{class_in as class_path};
ghost use Rattle.sv_elab_head.specs.Heads as heads;

use crate::names::{pure_names, routine_names};
use std::alloc::Global;
use sv_elab_declare::{
    ScopeHead, first_scope, is_automatic, makes_activation, settled_scope, this_name,
};
use sv_elab_scope::{Entry, Stage};
use sv_elab_signal::within;
use sv_elab_type::Alone;
use sv_names::{Around, Scope};
use sv_tree::{Head, Qualifiers, Routine};
use sv_value::{NoMemory, Seq, Text};

/// Whether a call of a subroutine makes an activation: it is automatic, or it declares a variable of an activation (6.21 and 13.4.2).
fn enters(usual: bool, class: Option<&[Text]>, of: &Head, names: &[Entry]) -> bool
    ensures { result ≡ heads.enters usual (class_path class.entry) (head_in of.now) (map entry_in names.now) }
{
    match class {
        Some(_) => true,
        None => is_automatic(usual, of.life) || makes_activation(names),
    }
}

/// The scope of a subroutine with this head over what it declares, in the scope with this path.
fn scope_over(
    alloc: Global,
    stage: Stage,
    around: &Around,
    path: &[Text],
    class: Option<&[Text]>,
    of: &Head,
    names: Seq<Entry>,
) -> Result<Scope, NoMemory>
    ensures { IfOk result (λ s. s ≡ heads.scope_over (is_last stage) (around_in around.now) path.now (class_path class.entry)
        (head_in of.now) (map entry_in names.entry)) }
{
    let enters = enters(around.is_automatic, class, of, names.as_slice());
    let own = within(alloc, path, &of.name)?;
    let head = ScopeHead {
        path: own.as_slice(),
        class,
        enters,
    };
    match stage {
        Stage::Rounds => first_scope::<Alone>(alloc, around, &head, names),
        Stage::End => settled_scope::<Alone>(alloc, around, &head, names),
    }
}

/// The scope of a subroutine that the scope with this path declares, with all that it declares itself: in the rounds of that scope, where what is
/// around it may still wait, or after them.
pub fn routine_scope(
    alloc: Global,
    stage: Stage,
    around: &Around,
    path: &[Text],
    class: Option<&[Text]>,
    qualifiers: Qualifiers,
    routine: &Routine,
) -> Result<Scope, NoMemory>
    ensures { IfOk result (λ s. s ≡ heads.subroutine_at (is_last stage) (around_in around.now) path.now (class_path class.entry)
        (heads.method_with qualifiers (routine_in routine.now))) }
{
    let this = this_name(alloc, routine.head.name.at)?;
    let names = routine_names(
        alloc,
        around.is_automatic,
        class,
        qualifiers,
        routine,
        &this,
    )?;
    scope_over(alloc, stage, around, path, class, &routine.head, names)
}

/// The scope of a pure method, which has a head alone (8.21), in the class with this path.
pub fn pure_scope(
    alloc: Global,
    stage: Stage,
    around: &Around,
    path: &[Text],
    class: &[Text],
    of: &Head,
) -> Result<Scope, NoMemory>
    ensures { IfOk result (λ s. s ≡ heads.subroutine_at (is_last stage) (around_in around.now) path.now (Some class.now)
        (entries.pure_method (head_in of.now))) }
{
    let this = this_name(alloc, of.name.at)?;
    let names = pure_names(alloc, class, of, &this)?;
    scope_over(alloc, stage, around, path, Some(class), of, names)
}
