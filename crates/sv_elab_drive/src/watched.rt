// What continuous assignments and port connections watch (IEEE 1800-2017, 10.3.2).
ghost use Rattle.std.specs.Prelude.{◌≡◌, ◌++◌, ◌∷◌, [], ℕ, filter, if◌then◌else◌, IfOk, IfErr, OnOk};
ghost use Rattle.sv_names.specs.declared.refusal.Refusal.TheVariants.{Memory};
ghost use Rattle.sv_names.specs.Connections as connections;

use std::alloc::Global;
use sv_elab_watch::{on_changes, read_by};
use sv_flat::{Expr, ExprForm, Stmt, Watch};
use sv_names::Refusal;
use sv_value::{NoMemory, Seq};

/// Whether an operand is of an object.
fn is_of_object(e: &Expr) -> bool
    ensures { result ≡ connections.is_of_object e.now }
{
    match &*e.form {
        ExprForm::Object { .. } => true,
        ExprForm::Element { .. } => true,
        ExprForm::Select { base, .. } => is_of_object(base),
        _ => false,
    }
}

/// Appends an operand, where it is of an object.
#[tactic(auto, using(crate::proofs::WatchedLaws::none_kept))]
fn keep(operand: Expr, kept: &mut Seq<Expr>) -> Result<(), NoMemory>
    ensures { OnOk result (kept.new ≡ kept.old ++ (if connections.is_of_object operand then operand ∷ [] else [])) }
{
    if is_of_object(&operand) {
        return kept.push(operand);
    }
    Ok(())
}

/// The operands that are of objects.
fn of_objects(alloc: Global, operands: Seq<Expr>) -> Result<Seq<Expr>, NoMemory>
    ensures { IfOk result (λ es. es ≡ filter connections.is_of_object operands) }
{
    let mut kept = Seq::new(alloc);
    for operand in operands.into_vec() {
        keep(operand, &mut kept)?;
    }
    Ok(kept)
}

/// What a process of these statements, which add no routine, watches: the objects that they read.
pub(crate) fn watched_by(alloc: Global, body: &[Stmt]) -> Result<Seq<Watch>, Refusal>
    ensures ok { (n : ℕ) → IfOk result (λ ws. ws ≡ connections.watched_by n (body.now, [])) }
    ensures err { IfErr result (λ e. e ≡ Memory) }
{
    let operands = read_by(alloc, 0, &[], body)?;
    let operands = of_objects(alloc, operands)?;
    let watches = on_changes(alloc, operands)?;
    Ok(watches)
}
