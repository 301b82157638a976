// Instances of units, with what they declare (IEEE 1800-2017, 23.3.2 and 23.10).
ghost use Rattle.std.specs.Prelude.{◌≡◌, ◌∷◌, [], IfOk, map};
ghost use Rattle.sv_tree.specs.UnitView.{connection, instance, item, description, design_element};
ghost use Rattle.sv_tree.specs.StmtView.{implied};
ghost use Rattle.sv_tree.specs.Types as types;
ghost use Rattle.sv_names.specs.Groups as groups;
ghost use Rattle.sv_names.specs.Instances as instances;
ghost use Rattle.sv_names.specs.Views.{around_in};
ghost use Rattle.sv_elab_class.specs.Heads.{head_in};
ghost use Rattle.sv_elab_declare.specs.Given.{givens_in};
ghost use Rattle.sv_elab_scope.specs.Rows.{group_in};
ghost use Rattle.sv_elab_scope.specs.Views.{entry_in};
ghost use Rattle.sv_elab_unit.specs.Definitions.{definition_in, names_in};
ghost use Rattle.sv_elab_walk.specs.Insts.{inst_in};
ghost use Rattle.sv_elab_walk.specs.Givens.{kept_in};
ghost use Rattle.sv_elab_walk.specs.Grounds.{IsBody, ServesAs, is_class, some_class, units_in, files_in};

use crate::givens::{KeptValue, givens_from, givens_of};
use crate::instance::Inst;
use crate::seen::{Seen, around_unit, seen_in};
use std::alloc::Global;
use sv_elab_class::{ClassHead, add_heads, announcements_stand, bases_stand};
use sv_elab_declare::{GivenValue, InstanceBody, add_files, add_unit};
use sv_elab_head::settled_unit;
use sv_elab_scope::{Entry, Group, twice};
use sv_elab_signal::within as named_within;
use sv_elab_unit::{Definition, Units, param_names};
use sv_names::{Around, Checked, Path, and_guard};
use sv_tree::{Connection, Description, DesignElement, ImpliedType, Instance, Item};
use sv_value::{NoMemory, Place, Seq, Text};

/// What all instances stand on.
#[derive(Clone, Copy)]
pub(crate) struct Ground<'f, 't> {
    /// The descriptions.
    pub units: &'f Units<'t>,
    /// What stands around the units.
    pub files: &'f Around<'f>,
}

/// A name before others.
fn chain_of<'t>(
    alloc: Global,
    name: &'t [u8],
    chain: &[&'t [u8]],
) -> Result<Seq<&'t [u8]>, NoMemory>
    ensures { IfOk result (λ ns. names_in ns ≡ name.now ∷ names_in chain.now) }
{
    let mut names = Vec::new(alloc);
    names.push(name)?;
    names.extend_from_slice(chain)?;
    Ok(Seq::from_vec(names))
}

/// What the declarations of an instance break by their names.
fn names_stand(alloc: Global, names: &[Entry], heads: &[ClassHead]) -> Result<Checked<()>, NoMemory>
    ensures { IfOk result (λ c. c ≡ instances.names_stand (map entry_in names.now) (map head_in heads.now)) }
{
    let differ = twice(alloc, 5, names)?;
    let guards = and_guard(differ, announcements_stand(names));
    Ok(and_guard(guards, bases_stand(heads)))
}

/// Whether an item declares a class.
fn is_class(one: &Item) -> bool
    ensures { result ≡ is_class (item one.now) }
{
    matches!(one, Item::Class(_))
}

/// Whether one of these items does.
fn some_class(items: &[Item]) -> bool
    ensures { result ≡ some_class (map item items.now) }
{
    for one in items {
        if is_class(one) {
            return true;
        }
    }
    false
}

/// What the files declare, as far as the classes among these items ask for it.
#[tactic(auto, using(crate::proofs::HeadLaws::no_heads))]
fn outer_entries<'a>(
    alloc: Global,
    units: &'a [Description],
    items: &[Item],
) -> Result<Seq<Entry<'a>>, NoMemory>
    ensures { IfOk result (λ es. ServesAs (map entry_in es) (instances.file_entries (map description units.now)) (map item items.now)) }
{
    let mut entries = Seq::new(alloc);
    if some_class(items) {
        add_files(alloc, units, &mut entries)?;
    }
    Ok(entries)
}

/// What an instance declares.
#[derive(Drop)]
struct Body {
    /// Its scope and its classes.
    group: Group,
    /// What its declarations break by their names.
    stands: Checked<()>,
}

/// What a unit declares in an instance with this path, which is given these values.
fn names_of<'a>(
    alloc: Global,
    body: InstanceBody<'a>,
    element: &'a DesignElement,
    givens: &[GivenValue<'a>],
) -> Result<Seq<Entry<'a>>, NoMemory>
    ensures { implied body.entry.unwritten.now ≡ types.Unwritten → IfOk result (λ es. map entry_in es
        ≡ instances.unit_entries body.entry.path.now (design_element element.now) (givens_in givens.now)) }
{
    let mut names = Seq::new(alloc);
    add_unit(alloc, body, givens, element, &mut names)?;
    Ok(names)
}

/// The classes of an instance that declares this.
fn heads_in<'a, 'e>(
    alloc: Global,
    units: &'e [Description],
    path: &[Text],
    own: &[Entry<'e>],
    items: &'a [Item],
) -> Result<Seq<ClassHead<'a>>, NoMemory>
    ensures { IfOk result (λ hs. map head_in hs ≡ groups.heads_of path.now (map entry_in own.now)
        (instances.file_entries (map description units.now)) (map item items.now)) }
{
    let outer = outer_entries(alloc, units, items)?;
    let mut heads = Seq::new(alloc);
    add_heads(alloc, path, own, outer.as_slice(), items, &mut heads)?;
    Ok(heads)
}

/// What an instance of a unit with this path declares, which is given these values; `around` is what stands around it.
fn body_of<'a>(
    alloc: Global,
    units: &'a [Description],
    around: &Around,
    path: &'a [Text],
    element: &'a DesignElement,
    kept: &'a [KeptValue],
) -> Result<Body, NoMemory>
    ensures { IfOk result (λ b. IsBody (map description units.now) (around_in around.now) path.now (design_element element.now)
        (kept_in kept.now) (group_in b.group) b.stands) }
{
    let unwritten = ImpliedType::Unwritten;
    let body = InstanceBody {
        path,
        unwritten: &unwritten,
    };
    let givens = givens_of(alloc, kept)?;
    let names = names_of(alloc, body, element, givens.as_slice())?;
    let items = element.items.as_slice();
    let heads = heads_in(alloc, units, path, names.as_slice(), items)?;
    let stands = names_stand(alloc, names.as_slice(), heads.as_slice())?;
    let group = settled_unit(alloc, around, path, names, heads.as_slice())?;
    Ok(Body { group, stands })
}

/// An instance of a unit, which is given these values.
fn inst_of<'t>(
    alloc: Global,
    ground: &Ground<'_, 't>,
    path: Path,
    chain: &[&'t [u8]],
    at: Place,
    unit: Definition<'t>,
    kept: &[KeptValue],
) -> Result<Inst<'t>, NoMemory>
    ensures { IfOk result (λ i. inst_in i ≡ instances.inst_of (units_in ground.now) (files_in ground.now) path (names_in chain.now) at
        (definition_in unit.entry) (kept_in kept.now)) }
{
    let around = around_unit(ground.files, unit, path.as_slice());
    let body = body_of(
        alloc,
        ground.units.all(),
        &around,
        path.as_slice(),
        unit.element,
        kept,
    )?;
    let Body { group, stands } = body;
    let name = unit.element.name.text.bytes();
    let chain = chain_of(alloc, name, chain)?;
    Ok(Inst {
        path,
        unit,
        at,
        chain,
        group,
        stands,
    })
}

/// An instance in another.
pub(crate) fn child<'f, 't>(
    alloc: Global,
    ground: &Ground<'f, 't>,
    of: &'f Inst<'t>,
    unit: Definition<'t>,
    params: &[Connection],
    one: &Instance,
) -> Result<Inst<'t>, NoMemory>
    ensures { IfOk result (λ c. inst_in c ≡ instances.child (units_in ground.now) (files_in ground.now) (inst_in of.now)
        (definition_in unit.entry) (map connection params.now) (instance one.now)) }
{
    let Seen { scopes, classes } = seen_in(alloc, ground.files, &of.group)?;
    let outer = around_unit(ground.files, of.unit, of.path.as_slice());
    let around = Around {
        scopes: scopes.as_slice(),
        classes: classes.as_slice(),
        ..outer
    };
    let names = param_names(alloc, unit.element)?;
    let kept = givens_from(alloc, &around, names.as_slice(), params)?;
    let path = named_within(alloc, of.path.as_slice(), &one.name)?;
    let inst = inst_of(
        alloc,
        ground,
        path,
        of.chain.as_slice(),
        one.name.at,
        unit,
        kept.as_slice(),
    )?;
    Ok(inst)
}

/// A root.
pub(crate) fn root_inst<'t>(
    alloc: Global,
    ground: &Ground<'_, 't>,
    unit: Definition<'t>,
) -> Result<Inst<'t>, NoMemory>
    ensures { IfOk result (λ i. inst_in i ≡ instances.root_inst (units_in ground.now) (files_in ground.now) (definition_in unit.entry)) }
{
    let path = named_within(alloc, &[], &unit.element.name)?;
    let inst = inst_of(alloc, ground, path, &[], unit.element.name.at, unit, &[])?;
    Ok(inst)
}
