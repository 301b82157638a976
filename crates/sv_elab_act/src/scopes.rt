// The scopes of blocks and loops (IEEE 1800-2017, 9.3 and 12.7).
ghost use Rattle.std.specs.Prelude.{◌≡◌, ◌∷◌, None, map, IfOk};
ghost use Rattle.sv_tree.specs.StmtView as view;
ghost use Rattle.sv_names.specs.Blocks as blocks;
ghost use Rattle.sv_names.specs.Statements as statements;
ghost use Rattle.sv_names.specs.Views.{around_in};
ghost use Rattle.sv_elab_act.specs.Acts as acts;

use std::alloc::Global;
use sv_elab_block as block;
use sv_elab_flow::{enclosed, walked};
use sv_elab_write::value_of_name;
use sv_names::{Around, Checked, Scope, Typed};
use sv_tree::{Decl, Name, Stmt, WrittenType};
use sv_value::NoMemory;

/// A scope in front of those around it.
pub(crate) fn within<'a>(
    alloc: Global,
    scope: &'a Scope,
    outer: &[&'a Scope],
) -> Result<Vec<&'a Scope>, NoMemory>
    ensures { IfOk result (λ scopes. map (λ s. s.now) scopes.items ≡ scope.now ∷ map (λ s. s.now) outer.now) }
{
    match enclosed(alloc, scope, outer) {
        Ok(scopes) => Ok(scopes),
        Err(_) => Err(NoMemory::Memory),
    }
}

/// The scope of a block or a fork.
pub(crate) fn block_scope(
    alloc: Global,
    s: &Stmt,
    name: &Option<Name>,
    declared: &[Decl],
    list: &[Stmt],
    around: &Around,
) -> Result<Scope, NoMemory>
    ensures { IfOk result (λ scope. scope
        ≡ blocks.inner_scope (around_in around.now) (blocks.first_name name.now s.now.label)
        (statements.block_entries (around_in around.now) (map view.decl declared.now) (view.stmt_list list.now))) }
{
    match block::block_scope(alloc, s, name, declared, list, around) {
        Ok(scope) => Ok(scope),
        Err(_) => Err(NoMemory::Memory),
    }
}

/// The scope of a `for` that declares its variable.
pub(crate) fn for_scope(
    alloc: Global,
    of: &WrittenType,
    name: &Name,
    body: &Stmt,
    around: &Around,
) -> Result<Scope, NoMemory>
    ensures { IfOk result (λ scope. scope
        ≡ blocks.inner_scope (statements.automatic_loop (around_in around.now)) None
        (statements.for_entries (view.type of.now) name.now (view.stmt body.now))) }
{
    match block::for_scope(alloc, of, name, body, around) {
        Ok(scope) => Ok(scope),
        Err(_) => Err(NoMemory::Memory),
    }
}

/// The array that a `foreach` walks. E7: it is none.
fn walked_array(alloc: Global, name: &Name, around: &Around) -> Result<Checked<Typed>, NoMemory>
    ensures { IfOk result (λ t. t ≡ statements.walked_array (around_in around.now) name.now) }
{
    match value_of_name(alloc, name, around) {
        Ok(Checked::Good(t)) => Ok(walked(name.at, t)),
        Ok(Checked::Broken(f)) => Ok(Checked::Broken(f)),
        Err(_) => Err(NoMemory::Memory),
    }
}

/// The scope of a `foreach`.
pub(crate) fn foreach_scope(
    alloc: Global,
    array: &Name,
    index: &Name,
    body: &Stmt,
    around: &Around,
) -> Result<Scope, NoMemory>
    ensures { IfOk result (λ scope. scope
        ≡ acts.foreach_scope (around_in around.now) array.now index.now (view.stmt body.now)) }
{
    let array = walked_array(alloc, array, around)?;
    match block::foreach_scope(alloc, &array, index, body, around) {
        Ok(scope) => Ok(scope),
        Err(_) => Err(NoMemory::Memory),
    }
}
