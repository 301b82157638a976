// What blocks, forks and loops declare (IEEE 1800-2017, 6.21, 9.3.4, 9.3.5 and 12.7).
ghost use Rattle.std.specs.Prelude.{◌≡◌, ◌∷◌, map, option_map, IfOk};
ghost use Rattle.sv_tree.specs.StmtView as view;
ghost use Rattle.sv_names.specs.Entries as entries;
ghost use Rattle.sv_names.specs.Statements as statements;
ghost use Rattle.sv_names.specs.Types as types;
ghost use Rattle.sv_names.specs.Views.{around_in};
ghost use Rattle.sv_elab_scope.specs.Views.{entry_in};
ghost use Rattle.sv_elab_block.specs.Names as names_by;

use std::alloc::Global;
use sv_elab_declare::{add_all_blocks, add_blocks, add_declarations, add_items};
use sv_elab_scope::{Declared, Entry, Storage};
use sv_names::{Around, Checked, Ty, Typed, int_type};
use sv_tree::{Decl, Dimension, Name, Stmt, WrittenType};
use sv_value::{NoMemory, Seq};

// ---- blocks and forks

/// What a block or a fork declares: its variables, and then the named blocks in it.
#[tactic(auto, using(crate::proofs::NameLaws::both_named))]
pub fn block_names<'a>(
    alloc: Global,
    declared: &'a [Decl],
    list: &'a [Stmt],
    around: &Around,
) -> Result<Seq<Entry<'a>>, NoMemory>
    ensures { IfOk result (λ es. map entry_in es
        ≡ statements.block_entries (around_in around.now) (map view.decl declared.now) (view.stmt_list list.now)) }
{
    let mut names = Seq::new(alloc);
    add_declarations(around.is_automatic, declared, &mut names)?;
    add_all_blocks(list, &mut names)?;
    Ok(names)
}

// ---- loops

/// What a `for` declares: the items in the type of its variable, the variable, which has no dimension, and the named blocks in it.
#[tactic(auto, using(crate::proofs::NameLaws::loop_named))]
pub fn for_names<'a>(
    alloc: Global,
    of: &'a WrittenType,
    dimension: &'a Option<Dimension>,
    name: &'a Name,
    body: &'a Stmt,
) -> Result<Seq<Entry<'a>>, NoMemory>
    ensures { IfOk result (λ es. map entry_in es
        ≡ names_by.loop_entries (view.type of.now) (option_map view.dimension dimension.now) name.now (view.stmt body.now)) }
{
    let mut names = Seq::new(alloc);
    add_items(of, &mut names)?;
    names.push(Entry {
        name,
        what: Declared::Variable {
            held: Storage::Activation,
            ty: of,
            dimension,
        },
    })?;
    add_blocks(body, &mut names)?;
    Ok(names)
}

/// The type of the index of an array.
fn key_of(alloc: Global, ty: &Ty) -> Result<Ty, NoMemory>
    ensures { IfOk result (λ t. t ≡ types.key_of ty.now) }
{
    match ty {
        Ty::Assoc(key, _) => key.get().as_type(alloc),
        _ => Ok(int_type()),
    }
}

/// The type of the variable of a `foreach`; where the array breaks a rule, it breaks the same.
pub fn index_type(alloc: Global, array: &Checked<Typed>) -> Result<Checked<Ty>, NoMemory>
    ensures { IfOk result (λ t. t ≡ statements.foreach_type array.now) }
{
    match array {
        Checked::Good(t) => {
            let key = key_of(alloc, &t.ty)?;
            Ok(Checked::Good(key))
        }
        Checked::Broken(f) => Ok(Checked::Broken(*f)),
    }
}

/// What a `foreach` declares whose variable has this type: the variable, and the named blocks in it.
#[tactic(auto, using(crate::proofs::NameLaws::one_named))]
pub fn foreach_names<'a>(
    alloc: Global,
    ty: &'a Checked<Ty>,
    index: &'a Name,
    body: &'a Stmt,
) -> Result<Seq<Entry<'a>>, NoMemory>
    ensures { IfOk result (λ es. map entry_in es
        ≡ entries.entry index.now (entries.A_given ty.now) ∷ entries.blocks (view.stmt body.now)) }
{
    let mut names = Seq::new(alloc);
    names.push(Entry {
        name: index,
        what: Declared::Given(ty),
    })?;
    add_blocks(body, &mut names)?;
    Ok(names)
}
