// The scopes of blocks, forks and loops (IEEE 1800-2017, 6.21, 9.3, 12.7 and 23.9).
ghost use Rattle.std.specs.Prelude.{◌≡◌, None, map, option_map, IfOk, IfErr};
ghost use Rattle.sv_tree.specs.StmtView as view;
ghost use Rattle.sv_names.specs.declared.refusal.Refusal.TheVariants.{Memory};
ghost use Rattle.sv_names.specs.Blocks as blocks;
ghost use Rattle.sv_names.specs.Statements as statements;
ghost use Rattle.sv_names.specs.Views.{around_in};
ghost use Rattle.sv_elab_scope.specs.Views.{entry_in};

use crate::names::{block_names, for_names, foreach_names, index_type};
use crate::paths::inner_path;
use std::alloc::Global;
use sv_elab_declare::{ScopeHead, makes_activation, settled_scope};
use sv_elab_scope::Entry;
use sv_elab_type::Alone;
use sv_names::{Around, Checked, Refusal, Scope, Typed};
use sv_tree::{Decl, Dimension, Name, Stmt, WrittenType};
use sv_value::{NoMemory, Seq};

/// The settled scope of a block, a fork or a loop, with these declarations.
fn inner_scope(
    alloc: Global,
    around: &Around,
    name: Option<&Name>,
    names: Seq<Entry>,
) -> Result<Scope, NoMemory>
    ensures { IfOk result (λ scope. scope
        ≡ blocks.inner_scope (around_in around.now) (option_map (λ n. n.now) name.entry) (map entry_in names.entry)) }
{
    let path = inner_path(alloc, around, name)?;
    let head = ScopeHead {
        path: path.as_slice(),
        class: None,
        enters: makes_activation(names.as_slice()),
    };
    let scope = settled_scope::<Alone>(alloc, around, &head, names)?;
    Ok(scope)
}

// ---- blocks and forks

/// The name of a block, or else its label.
fn first_name<'a>(name: &'a Option<Name>, label: &'a Option<Name>) -> Option<&'a Name>
    ensures { option_map (λ n. n.now) result ≡ blocks.first_name name.now label.now }
{
    match (name, label) {
        (Some(name), _) => Some(name),
        (None, Some(label)) => Some(label),
        (None, None) => None,
    }
}

/// The settled scope of a block or a fork (9.3), which its statements and declarations stand in.
pub fn block_scope(
    alloc: Global,
    s: &Stmt,
    name: &Option<Name>,
    declared: &[Decl],
    list: &[Stmt],
    around: &Around,
) -> Result<Scope, Refusal>
    ensures ok { IfOk result (λ scope. scope
        ≡ blocks.inner_scope (around_in around.now) (blocks.first_name name.now s.now.label)
        (statements.block_entries (around_in around.now) (map view.decl declared.now) (view.stmt_list list.now))) }
    ensures err { IfErr result (λ e. e ≡ Memory) }
{
    let names = block_names(alloc, declared, list, around)?;
    let scope = inner_scope(alloc, around, first_name(name, &s.label), names)?;
    Ok(scope)
}

// ---- loops

/// Where the variable of a loop is declared, which is automatic (12.7.1).
fn automatic_loop<'a>(around: &Around<'a>) -> Around<'a>
    ensures { around_in result ≡ statements.automatic_loop (around_in around.now) }
{
    Around {
        is_automatic: true,
        ..*around
    }
}

/// The settled scope of a `for` that declares its variable (12.7.1).
pub fn for_scope(
    alloc: Global,
    of: &WrittenType,
    name: &Name,
    body: &Stmt,
    around: &Around,
) -> Result<Scope, Refusal>
    ensures ok { IfOk result (λ scope. scope
        ≡ blocks.inner_scope (statements.automatic_loop (around_in around.now)) None
        (statements.for_entries (view.type of.now) name.now (view.stmt body.now))) }
    ensures err { IfErr result (λ e. e ≡ Memory) }
{
    let none: Option<Dimension> = None;
    let names = for_names(alloc, of, &none, name, body)?;
    let scope = inner_scope(alloc, &automatic_loop(around), None, names)?;
    Ok(scope)
}

/// The settled scope of a `foreach` through an array (12.7.3), whose variable has the type of its index.
pub fn foreach_scope(
    alloc: Global,
    array: &Checked<Typed>,
    index: &Name,
    body: &Stmt,
    around: &Around,
) -> Result<Scope, Refusal>
    ensures ok { IfOk result (λ scope. scope
        ≡ blocks.inner_scope (around_in around.now) None
        (statements.foreach_entries array.now index.now (view.stmt body.now))) }
    ensures err { IfErr result (λ e. e ≡ Memory) }
{
    let ty = index_type(alloc, array)?;
    let names = foreach_names(alloc, &ty, index, body)?;
    let scope = inner_scope(alloc, around, None, names)?;
    Ok(scope)
}
