// The named blocks of statements, each of which the scope of the statement declares (IEEE 1800-2017, 9.3.4 and 9.3.5).
ghost use Rattle.std.specs.Prelude.{OnOk};
ghost use Rattle.sv_tree.specs.Stmt as tree;
ghost use Rattle.sv_tree.specs.StmtView.{stmt, stmt_list, case_item, case_item_list};
ghost use Rattle.sv_names.specs.Entries as entries;
ghost use Rattle.sv_elab_declare.specs.Added.{Added};

use sv_elab_scope::{Declared, Entry};
use sv_tree::{Body, CaseItem, ForInit, Name, Stmt};
use sv_value::{NoMemory, Seq};

/// Appends a block by its name, or else by its label.
#[tactic(auto, using(crate::proofs::AddedLaws::added_none, crate::proofs::AddedLaws::added_one))]
fn add_block<'a>(
    name: &'a Option<Name>,
    label: &'a Option<Name>,
    names: &mut Seq<Entry<'a>>,
) -> Result<(), NoMemory>
    ensures { OnOk result (Added names.old names.new (entries.block_named name.now label.now)) }
{
    let name = match (name, label) {
        (Some(name), _) => name,
        (None, Some(label)) => label,
        (None, None) => return Ok(()),
    };
    names.push(Entry {
        name,
        what: Declared::Another,
    })
}

/// Appends the named blocks of a statement. Those within a block, a fork or a loop with a variable of its own are its own.
#[cycle(blocks)]
#[tactic(auto, using(crate::proofs::AddedLaws::added_none, crate::proofs::AddedLaws::added_both))]
pub fn add_blocks<'a>(of: &'a Stmt, names: &mut Seq<Entry<'a>>) -> Result<(), NoMemory>
    ensures { OnOk result (Added names.old names.new (entries.blocks (stmt of.now))) }
{
    match &of.body {
        Body::Block { name, .. } | Body::Fork { name, .. } => add_block(name, &of.label, names),
        Body::If(_, x) => add_blocks(x, names),
        Body::IfElse { yes, no, .. } => {
            add_blocks(yes, names)?;
            add_blocks(no, names)
        }
        Body::Case { items, .. } => add_case_blocks(items.as_slice(), names),
        Body::For { init, body, .. } => match &**init {
            ForInit::Declare { .. } => Ok(()),
            ForInit::Assign(_, _) => add_blocks(body, names),
        },
        Body::While(_, x) => add_blocks(x, names),
        Body::Do(x, _) => add_blocks(x, names),
        Body::Repeat(_, x) => add_blocks(x, names),
        Body::Forever(x) => add_blocks(x, names),
        Body::After(_, x) => add_blocks(x, names),
        Body::On(_, x) => add_blocks(x, names),
        Body::Cycles { body, .. } => add_blocks(body, names),
        Body::Wait { body, .. } => add_blocks(body, names),
        Body::Foreach { .. } => Ok(()),
        Body::Null | Body::Blocking(_) | Body::Nonblocking(_) | Body::Operator(_) => Ok(()),
        Body::Step(_, _) | Body::Call(_) | Body::Ignore(_, _) | Body::WaitFork => Ok(()),
        Body::DisableFork | Body::Trigger(_) | Body::Break | Body::Continue => Ok(()),
        Body::Return(_) => Ok(()),
    }
}

/// Appends the named blocks of the items of a `case`.
#[cycle(blocks)]
fn add_case_blocks<'a>(items: &'a [CaseItem], names: &mut Seq<Entry<'a>>) -> Result<(), NoMemory>
    ensures { OnOk result (Added names.old names.new (entries.blocks_of_items (case_item_list items.now))) }
{
    for item in items {
        add_item_blocks(item, names)?;
    }
    Ok(())
}

/// Appends the named blocks of an item of a `case`.
#[cycle(blocks)]
#[tactic(auto, using(crate::proofs::BlockLaws::one_item))]
fn add_item_blocks<'a>(item: &'a CaseItem, names: &mut Seq<Entry<'a>>) -> Result<(), NoMemory>
    ensures { OnOk result (Added names.old names.new (entries.blocks_of_items (case_item item.now tree.NoCaseItem))) }
{
    match item {
        CaseItem::Labels(_, x) => add_blocks(x, names),
        CaseItem::Default(x) => add_blocks(x, names),
    }
}

/// Appends the named blocks of statements.
pub fn add_all_blocks<'a>(all: &'a [Stmt], names: &mut Seq<Entry<'a>>) -> Result<(), NoMemory>
    ensures { OnOk result (Added names.old names.new (entries.blocks_of (stmt_list all.now))) }
{
    for one in all {
        add_blocks(one, names)?;
    }
    Ok(())
}
