// `super.new`, and what a system name asks of its arguments (IEEE 1800-2017, 8.15, 8.16 and 20.6.2): E7, E15, E38.
ghost use Rattle.std.specs.Prelude.{◌≡◌, List, IfOk, IfErr};
ghost use Rattle.sv_tree.specs.declared.expr.Root.TheVariants as root;
ghost use Rattle.sv_tree.specs.Expr as tree;
ghost use Rattle.sv_tree.specs.View as view;
ghost use Rattle.sv_names.specs.declared.checked.Checked.{Checked as checked};
ghost use Rattle.sv_names.specs.declared.refusal.Refusal.TheVariants.{Memory};
ghost use Rattle.sv_names.specs.declared.system.System.TheVariants as system_of;
ghost use Rattle.sv_names.specs.Expressions as expressions;
ghost use Rattle.sv_names.specs.Operators as operators;
ghost use Rattle.sv_names.specs.Views.{around_in};
ghost use Rattle.sv_names.specs.Given.{Gives};
ghost use Rattle.sv_elab_step.specs.TypeNames as names;

use std::alloc::Global;
use sv_names::{Around, Checked, Fault, Named, Refusal, System, Ty, Typed, first, judged, told_at};
use sv_tree::{Actuals, Expr, Name, Root, Suffix};
use sv_value::{Place, Seq};

/// E38: `super.new` stands only as the first statement of a constructor.
pub fn no_constructor(
    at: Place,
    parts: Result<Seq<(Place, Typed)>, Refusal>,
) -> Result<Typed, Refusal>
    ensures { (x : checked (List operators.Placed)) → Gives parts x → Gives result (expressions.no_constructor at x) }
{
    match parts {
        Ok(_) => Err(Refusal::Rule { rule: 38, at }),
        Err(e) => Err(first(Refusal::Rule { rule: 38, at }, e)),
    }
}

// ---- `$cast`

/// Of two arguments, the first one.
#[tactic(auto, using(crate::proofs::TypeLaws::two_outputs, crate::proofs::TypeLaws::no_outputs))]
fn outputs_of_items(items: &[Expr]) -> &'static [bool]
    ensures { result.now ≡ expressions.outputs_of_system system_of.Cast (tree.Written (view.expr_list items.now)) }
{
    if items.len() == 2 { &[true] } else { &[] }
}

/// Of arguments that may be left out.
fn outputs_of_cast(actuals: &Actuals) -> &'static [bool]
    ensures { result.now ≡ expressions.outputs_of_system system_of.Cast (view.actuals actuals.now) }
{
    match actuals {
        Actuals::Written(items) => outputs_of_items(items),
        Actuals::Unwritten => &[],
    }
}

/// `$cast` of two arguments takes the first one as a target.
#[tactic(auto, using(crate::proofs::TypeLaws::other_outputs))]
pub fn outputs_of_system(system: System, actuals: &Actuals) -> &'static [bool]
    ensures { result.now ≡ expressions.outputs_of_system system (view.actuals actuals.now) }
{
    match system {
        System::Cast => outputs_of_cast(actuals),
        _ => &[],
    }
}

// ---- the type that an argument names

/// The type that a declaration is, if it is one. E15: a class.
fn type_meant(alloc: Global, at: Place, named: &Named) -> Result<Option<Checked<Ty>>, Refusal>
    ensures ok { IfOk result (λ t. t ≡ names.type_meant at named.now) }
    ensures err { IfErr result (λ e. e ≡ Memory) }
{
    match named {
        Named::TypeName(ty) => {
            let ty = ty.copy(alloc)?;
            Ok(Some(Checked::Good(ty)))
        }
        Named::ClassName(_) => Ok(Some(Checked::Broken(Fault { at, rule: 15 }))),
        _ => Ok(None),
    }
}

/// E7: the rule that the declaration of a type breaks.
fn type_told(around: &Around, name: &Name, fault: Fault) -> Result<Option<Checked<Ty>>, Refusal>
    ensures ok { IfOk result (λ t. t ≡ names.type_told (around_in around.now) name.now fault) }
    ensures err { IfErr result (λ e. e ≡ Memory) }
{
    if !around.names_type(name.text.bytes()) {
        return Ok(None);
    }
    let told = judged(Err(told_at(name, fault)))?;
    Ok(Some(told))
}

/// The type that a declaration stands for, or the rule that it breaks.
fn type_declared(
    alloc: Global,
    around: &Around,
    name: &Name,
    value: &Checked<Named>,
) -> Result<Option<Checked<Ty>>, Refusal>
    ensures ok { IfOk result (λ t. t ≡ names.type_declared (around_in around.now) name.now value.now) }
    ensures err { IfErr result (λ e. e ≡ Memory) }
{
    match value {
        Checked::Good(named) => type_meant(alloc, name.at, named),
        Checked::Broken(fault) => type_told(around, name, *fault),
    }
}

/// The type that a name stands for, if it is one.
fn type_named(alloc: Global, around: &Around, name: &Name) -> Result<Option<Checked<Ty>>, Refusal>
    ensures ok { IfOk result (λ t. t
        ≡ expressions.type_in (around_in around.now) (tree.Post (root.Plain name.now) tree.NoSuffix)) }
    ensures err { IfErr result (λ e. e ≡ Memory) }
{
    match around.find(name.text.bytes()) {
        None => Ok(None),
        Some(found) => type_declared(alloc, around, name, &found.known.value),
    }
}

/// The same, of what a name may begin.
fn type_of_root(alloc: Global, around: &Around, root: &Root) -> Result<Option<Checked<Ty>>, Refusal>
    ensures ok { IfOk result (λ t. t ≡ expressions.type_in (around_in around.now) (tree.Post root.now tree.NoSuffix)) }
    ensures err { IfErr result (λ e. e ≡ Memory) }
{
    match root {
        Root::Plain(name) => type_named(alloc, around, name),
        Root::This(_) => Ok(None),
        Root::Super(_, _) => Ok(None),
        Root::Scoped(_, _) => Ok(None),
    }
}

/// The same, with what follows.
fn type_of_post(
    alloc: Global,
    around: &Around,
    root: &Root,
    suffixes: &[Suffix],
) -> Result<Option<Checked<Ty>>, Refusal>
    ensures ok { IfOk result (λ t. t
        ≡ expressions.type_in (around_in around.now) (tree.Post root.now (view.suffix_list suffixes.now))) }
    ensures err { IfErr result (λ e. e ≡ Memory) }
{
    if suffixes.is_empty() {
        type_of_root(alloc, around, root)
    } else {
        Ok(None)
    }
}

/// The type that an expression names.
fn type_in(alloc: Global, around: &Around, e: &Expr) -> Result<Option<Checked<Ty>>, Refusal>
    ensures ok { IfOk result (λ t. t ≡ expressions.type_in (around_in around.now) (view.expr e.now)) }
    ensures err { IfErr result (λ e. e ≡ Memory) }
{
    match e {
        Expr::Post(root, suffixes) => type_of_post(alloc, around, root, suffixes),
        Expr::Number(_, _) => Ok(None),
        Expr::Time(_, _) => Ok(None),
        Expr::Text(_, _) => Ok(None),
        Expr::Null(_) => Ok(None),
        Expr::Dollar(_) => Ok(None),
        Expr::Group(_, _) => Ok(None),
        Expr::System(_, _) => Ok(None),
        Expr::SuperNew { .. } => Ok(None),
        Expr::Join(_, _) => Ok(None),
        Expr::Repeat { .. } => Ok(None),
        Expr::Cast(_, _) => Ok(None),
        Expr::Unary { .. } => Ok(None),
        Expr::Binary { .. } => Ok(None),
        Expr::Choose { .. } => Ok(None),
    }
}

/// The type that the first of arguments names.
fn type_of_first(
    alloc: Global,
    around: &Around,
    items: &[Expr],
) -> Result<Option<Checked<Ty>>, Refusal>
    ensures ok { IfOk result (λ t. t
        ≡ expressions.first_type (around_in around.now) (tree.Written (view.expr_list items.now))) }
    ensures err { IfErr result (λ e. e ≡ Memory) }
{
    match items {
        [] => Ok(None),
        [e, ..] => type_in(alloc, around, e),
    }
}

/// The type that the first argument names, for `$bits` (20.6.2). E15: it is a class; E7: its declaration needs itself.
pub fn first_type(
    alloc: Global,
    around: &Around,
    actuals: &Actuals,
) -> Result<Option<Checked<Ty>>, Refusal>
    ensures ok { IfOk result (λ t. t ≡ expressions.first_type (around_in around.now) (view.actuals actuals.now)) }
    ensures err { IfErr result (λ e. e ≡ Memory) }
{
    match actuals {
        Actuals::Written(items) => type_of_first(alloc, around, items),
        Actuals::Unwritten => Ok(None),
    }
}
