// What the declarations of blocks, forks and loops break (IEEE 1800-2017, 9.3, 12.7 and 23.9): E5, E56, and the rules of each declaration.
ghost use Rattle.std.specs.Prelude.{map};
ghost use Rattle.sv_tree.specs.StmtView as view;
ghost use Rattle.sv_names.specs.Blocks as blocks;
ghost use Rattle.sv_names.specs.Given.{Gives};
ghost use Rattle.sv_names.specs.Statements as statements;
ghost use Rattle.sv_names.specs.Views.{around_in};
ghost use Rattle.sv_elab_scope.specs.Views.{entry_in};

use crate::names::{block_names, for_names, foreach_names, index_type};
use std::alloc::Global;
use sv_elab_object::known_stand;
use sv_elab_scope::{Entry, twice};
use sv_names::{Around, Checked, Refusal, Scope, Typed, answer, where_also};
use sv_tree::{Decl, Dimension, Name, Stmt, WrittenType};

/// E5: a name is declared twice; or what the declarations of a settled scope break.
#[tactic(auto, using(crate::proofs::StandLaws::scope_is))]
fn scope_stands(alloc: Global, scope: &Scope, names: &[Entry]) -> Result<(), Refusal>
    ensures { Gives result (blocks.scope_stands scope.now (map entry_in names.now)) }
{
    let differ = twice(alloc, 5, names)?;
    where_also(answer(differ), known_stand(alloc, scope.known.as_slice()))
}

/// E5: a block or a fork declares a name twice; or what its declarations break.
pub fn block_stands(
    alloc: Global,
    scope: &Scope,
    declared: &[Decl],
    list: &[Stmt],
    around: &Around,
) -> Result<(), Refusal>
    ensures { Gives result (blocks.scope_stands scope.now
        (statements.block_entries (around_in around.now) (map view.decl declared.now) (view.stmt_list list.now))) }
{
    let names = block_names(alloc, declared, list, around)?;
    scope_stands(alloc, scope, names.as_slice())
}

/// E5: a `for` declares a name twice; or what its declarations break.
pub fn for_stands(
    alloc: Global,
    scope: &Scope,
    of: &WrittenType,
    name: &Name,
    body: &Stmt,
) -> Result<(), Refusal>
    ensures { Gives result (blocks.scope_stands scope.now
        (statements.for_entries (view.type of.now) name.now (view.stmt body.now))) }
{
    let none: Option<Dimension> = None;
    let names = for_names(alloc, of, &none, name, body)?;
    scope_stands(alloc, scope, names.as_slice())
}

/// E5: a `foreach` declares a name twice; or what its declarations break.
pub fn foreach_stands(
    alloc: Global,
    scope: &Scope,
    array: &Checked<Typed>,
    index: &Name,
    body: &Stmt,
) -> Result<(), Refusal>
    ensures { Gives result (blocks.scope_stands scope.now
        (statements.foreach_entries array.now index.now (view.stmt body.now))) }
{
    let ty = index_type(alloc, array)?;
    let names = foreach_names(alloc, &ty, index, body)?;
    scope_stands(alloc, scope, names.as_slice())
}
