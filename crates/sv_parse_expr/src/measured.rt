// Trees with their depth, by which the operators around them are counted.
ghost use Rattle.std.specs.Prelude.{◌≡◌, ℕ, suc, ◌+◌, ◌<◌, ◌≤◌, IfOk, true, false};
ghost use Rattle.sv_grammar.specs.Code.{larger};
ghost use Rattle.sv_tree.specs.Depth.{depth, most_depth};
ghost use Rattle.sv_tree.specs.Expr as tree;
ghost use Rattle.sv_tree.specs.View as view;

use std::alloc::Global;
use sv_tree::{BinaryWord, Expr};
use sv_value::{NoMemory, Place};

/// A tree and its depth.
#[derive(Drop)]
pub struct Measured<T> {
    pub tree: T,
    pub depth: u32,
}

/// Expressions in brackets, at the bracket.
#[derive(Drop)]
pub struct Bracketed {
    pub at: Place,
    pub list: Vec<Expr>,
}

/// The larger of two numbers.
#[tactic(auto, using(sv_grammar::proofs::Budgets::larger_right, sv_grammar::proofs::Budgets::larger_left))]
pub fn larger(a: u32, b: u32) -> u32
    ensures value { result ≡ larger a b }
    ensures either { (a ≤ result) × (b ≤ result) }
    ensures low { (c : ℕ) → a < c → b < c → result < c }
{
    if a <= b { b } else { a }
}

/// Two operands and the operator between them.
pub fn joined(
    alloc: Global,
    word: BinaryWord,
    at: Place,
    left: Measured<Expr>,
    right: Measured<Expr>,
) -> Result<Measured<Expr>, NoMemory>
    requires left { left.depth < most_depth }
    requires right { right.depth < most_depth }
    requires left_depth { left.depth ≡ depth (view.expr left.tree) }
    requires right_depth { right.depth ≡ depth (view.expr right.tree) }
    ensures tree { IfOk result (λ m. view.expr m.tree ≡ tree.Binary word at (view.expr left.tree) (view.expr right.tree)) }
    ensures depth { IfOk result (λ m. m.depth ≡ depth (view.expr m.tree)) }
    ensures grows { IfOk result (λ m. (left.depth < m.depth) × ((b : ℕ) → left.depth < b → right.depth < b → m.depth ≤ b)) }
{
    let depth = larger(left.depth, right.depth) + 1;
    let tree = Expr::Binary {
        word,
        at,
        left: Box::new(alloc, left.tree)?,
        right: Box::new(alloc, right.tree)?,
    };
    Ok(Measured { tree, depth })
}

/// A condition and what is chosen by it.
pub fn chosen(
    alloc: Global,
    condition: Measured<Expr>,
    yes: Measured<Expr>,
    no: Measured<Expr>,
) -> Result<Measured<Expr>, NoMemory>
    requires low { condition.depth < most_depth }
    requires low_yes { yes.depth < most_depth }
    requires low_no { no.depth < most_depth }
    requires condition_depth { condition.depth ≡ depth (view.expr condition.tree) }
    requires yes_depth { yes.depth ≡ depth (view.expr yes.tree) }
    requires no_depth { no.depth ≡ depth (view.expr no.tree) }
    ensures tree { IfOk result (λ m. view.expr m.tree ≡ tree.Choose (view.expr condition.tree) (view.expr yes.tree) (view.expr no.tree)) }
    ensures depth { IfOk result (λ m. m.depth ≡ depth (view.expr m.tree)) }
    ensures grows { IfOk result (λ m. (b : ℕ) → condition.depth < b → yes.depth < b → no.depth < b → m.depth ≤ b) }
{
    let depth = larger(condition.depth, larger(yes.depth, no.depth)) + 1;
    let tree = Expr::Choose {
        condition: Box::new(alloc, condition.tree)?,
        yes: Box::new(alloc, yes.tree)?,
        no: Box::new(alloc, no.tree)?,
    };
    Ok(Measured { tree, depth })
}
