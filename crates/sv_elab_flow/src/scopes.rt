// How many scopes statements make in the scope that they stand in (IEEE 1800-2017, 9.3 and 12.7).
ghost use Rattle.std.specs.Prelude.{◌≡◌, ◌-◌, ◌^◌, min};
ghost use Rattle.sv_tree.specs.StmtView as view;
ghost use Rattle.sv_tree.specs.Stmt as tree;
ghost use Rattle.sv_names.specs.Blocks as blocks;
ghost use Rattle.sv_names.specs.Views.{around_in};

use sv_names::Around;
use sv_tree::{Body, CaseItem, ForInit, Stmt};

/// How many scopes a statement makes; more than every limit are not told from others.
#[cycle(scopes)]
pub fn scopes_made(s: &Stmt) -> u32
    ensures { result ≡ min (blocks.scopes_made (view.stmt s.now)) (2 ^ 32 - 1) }
{
    match &s.body {
        Body::Block { .. } => 1,
        Body::Fork { .. } => 1,
        Body::For { init, body, .. } => match &**init {
            ForInit::Declare { .. } => 1,
            ForInit::Assign(_, _) => scopes_made(body),
        },
        Body::Foreach { .. } => 1,
        Body::If(_, x) => scopes_made(x),
        Body::IfElse { yes, no, .. } => scopes_made(yes).saturating_add(scopes_made(no)),
        Body::Case { items, .. } => scopes_of(items.as_slice()),
        Body::While(_, x) => scopes_made(x),
        Body::Do(x, _) => scopes_made(x),
        Body::Repeat(_, x) => scopes_made(x),
        Body::Forever(x) => scopes_made(x),
        Body::After(_, x) => scopes_made(x),
        Body::On(_, x) => scopes_made(x),
        Body::Cycles { body, .. } => scopes_made(body),
        Body::Wait { body, .. } => scopes_made(body),
        Body::Null | Body::Blocking(_) | Body::Nonblocking(_) | Body::Operator(_) => 0,
        Body::Step(_, _) | Body::Call(_) | Body::Ignore(_, _) | Body::WaitFork => 0,
        Body::DisableFork | Body::Trigger(_) | Body::Break | Body::Continue => 0,
        Body::Return(_) => 0,
    }
}

/// How many scopes the items of a `case` make.
#[cycle(scopes)]
fn scopes_of(items: &[CaseItem]) -> u32
    ensures { result ≡ min (blocks.scopes_of_items (view.case_item_list items.now)) (2 ^ 32 - 1) }
{
    let mut made = 0_u32;
    for item in items {
        made = made.saturating_add(scopes_of_item(item));
    }
    made
}

/// How many scopes an item of a `case` makes.
#[cycle(scopes)]
fn scopes_of_item(item: &CaseItem) -> u32
    ensures { result ≡ min (blocks.scopes_of_items (view.case_item item.now tree.NoCaseItem)) (2 ^ 32 - 1) }
{
    match item {
        CaseItem::Labels(_, x) => scopes_made(x),
        CaseItem::Default(x) => scopes_made(x),
    }
}

/// Behind a statement, in the same scope.
pub fn after<'a>(around: &Around<'a>, s: &Stmt) -> Around<'a>
    ensures { around_in result
        ≡ blocks.after_scopes (blocks.scopes_made (view.stmt s.now)) (around_in around.now) }
{
    Around {
        blocks: around.blocks.saturating_add(scopes_made(s)),
        ..*around
    }
}

/// Behind an item of a `case`, in the same scope.
pub fn after_item<'a>(around: &Around<'a>, item: &CaseItem) -> Around<'a>
    ensures { around_in result ≡ blocks.after_scopes (blocks.scopes_of_items (view.case_item item.now tree.NoCaseItem))
        (around_in around.now) }
{
    Around {
        blocks: around.blocks.saturating_add(scopes_of_item(item)),
        ..*around
    }
}
