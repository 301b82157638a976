// Targets as statements write them, and names alone (IEEE 1800-2017, 10.3, 10.4 and 11.4.12): E6, E7, E18, E42.
ghost use Rattle.std.specs.Prelude.{◌≡◌, IfOk, IfErr};
ghost use Rattle.sv_tree.specs.Expr as tree;
ghost use Rattle.sv_tree.specs.StmtView as view;
ghost use Rattle.sv_tree.specs.declared.expr.Root.TheVariants as root;
ghost use Rattle.sv_names.specs.declared.refusal.Refusal.TheVariants.{Memory};
ghost use Rattle.sv_names.specs.Assignments as assignments;
ghost use Rattle.sv_names.specs.Expressions as expressions;
ghost use Rattle.sv_names.specs.Views.{around_in};

use std::alloc::Global;
use sv_elab_expr::sv_elab_select::Spot;
use sv_elab_expr::sv_elab_step::{as_concatenation, behind_spots};
use sv_elab_expr::{place_of_root, target_of_name};
use sv_names::{Around, Checked, Fault, How, Refusal};
use sv_tree::Lval;
use sv_value::{Place, Seq};

/// The first token of a target.
pub fn place_of_target(target: &Lval) -> Place
    ensures { result ≡ assignments.place_of_lval (view.lval target.now) }
{
    match target {
        Lval::Post(root, _) => place_of_root(root),
        Lval::Join(at, _) => *at,
    }
}

/// A target; none where a part of a concatenation can be none.
#[cycle(target)]
fn target_in(
    alloc: Global,
    how: How,
    target: &Lval,
    around: &Around,
) -> Result<Option<Checked<Seq<Spot>>>, Refusal>
    ensures ok { IfOk result (λ t. t
        ≡ expressions.target_in how (around_in around.now) (expressions.as_expr (view.lval target.now))) }
    ensures err { IfErr result (λ e. e ≡ Memory) }
{
    match target {
        Lval::Post(root, suffixes) => {
            let target = target_of_name(alloc, how, root, suffixes, around)?;
            Ok(Some(target))
        }
        Lval::Join(at, items) => {
            let parts = targets_in(alloc, how, items, around)?;
            as_concatenation(alloc, *at, parts)
        }
    }
}

/// The parts of a concatenation as targets, each behind those before it.
#[cycle(target)]
fn targets_in(
    alloc: Global,
    how: How,
    items: &[Lval],
    around: &Around,
) -> Result<Vec<Option<Checked<Seq<Spot>>>>, Refusal>
    ensures ok { IfOk result (λ ts. ts.items
        ≡ expressions.targets_in how (around_in around.now) (expressions.as_exprs (view.lval_list items.now))) }
    ensures err { IfErr result (λ e. e ≡ Memory) }
{
    let mut done = Vec::new(alloc);
    let mut place = *around;
    for item in items {
        let target = target_in(alloc, how, item, &place)?;
        place = behind_spots(&place, &target);
        done.push(target)?;
    }
    Ok(done)
}

/// A target. E18: it can be none.
#[tactic(auto, using(crate::proofs::TargetLaws::written, crate::proofs::TargetLaws::unwritten))]
pub fn target_of(
    alloc: Global,
    how: How,
    target: &Lval,
    around: &Around,
) -> Result<Checked<Seq<Spot>>, Refusal>
    ensures ok { IfOk result (λ c. c ≡ expressions.target how (around_in around.now) (view.lval target.now)) }
    ensures err { IfErr result (λ e. e ≡ Memory) }
{
    match target_in(alloc, how, target, around)? {
        Some(spots) => Ok(spots),
        None => Ok(Checked::Broken(Fault {
            at: place_of_target(target),
            rule: 18,
        })),
    }
}
