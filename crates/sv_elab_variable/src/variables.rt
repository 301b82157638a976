// The variables of declarations: objects of static ones, first assignments of the others (IEEE 1800-2017, 6.8 and 6.21): E6, E25, E41, E42.
ghost use Rattle.std.specs.Prelude.{◌≡◌, ◌++◌, List, map, option_map, OnOk};
ghost use Rattle.sv_flat.specs.declared.class.Routine.{Routine as routine};
ghost use Rattle.sv_flat.specs.declared.object.Object.{Object as object_type};
ghost use Rattle.sv_tree.specs.StmtView as view;
ghost use Rattle.sv_names.specs.declared.checked.Checked.TheVariants.{Good, Broken};
ghost use Rattle.sv_names.specs.Blocks as blocks;
ghost use Rattle.sv_names.specs.Emits.{Emits};
ghost use Rattle.sv_names.specs.Views.{around_in};

use crate::openings::opening_of;
use crate::words::{opening_stands, word_stands};
use std::alloc::Global;
use sv_elab_assign::at_opening;
use sv_elab_declare::is_automatic;
use sv_elab_flow::{guarded_code, in_sequence, nothing, statement};
use sv_elab_object::{Flags, object_at};
use sv_elab_write::first_assigned;
use sv_flat::{Initial, Object, ObjectKind, Stmt};
use sv_names::{Around, Checked, Fault, Named, Refusal};
use sv_tree::{Decl, Declarator, Init, Life, Name};
use sv_value::{NoMemory, Seq};

// ---- variables of activations

/// The initializer of a variable as an assignment, whose place is the name.
#[tactic(auto, using(sv_elab_flow::proofs::Added::none_added))]
fn assigned_first(
    alloc: Global,
    name: &Name,
    value: &Init,
    around: &Around,
) -> Result<Seq<Stmt>, Refusal>
    ensures { (rs : List routine) (os : List object_type)
        → Emits rs rs os os result (blocks.assigned_first (around_in around.now) name.now (view.init value.now)) }
{
    match first_assigned(alloc, name.at, name, value, around) {
        Ok(form) => statement(alloc, name.at, form),
        Err(e) => Err(e),
    }
}

/// The first assignment of a variable of an activation, if it has one.
fn local_variable(
    alloc: Global,
    name: &Name,
    init: &Option<Init>,
    around: &Around,
) -> Result<Seq<Stmt>, Refusal>
    ensures { (rs : List routine) (os : List object_type) → Emits rs rs os os result
        (blocks.local_variable (around_in around.now) name.now (option_map view.init init.now)) }
{
    match init {
        None => nothing(alloc),
        Some(value) => assigned_first(alloc, name, value, around),
    }
}

// ---- static variables

/// Appends the object of a static variable.
fn add_object(
    alloc: Global,
    name: &Name,
    named: &Named,
    initial: Option<Initial>,
    around: &Around,
    objects: &mut Seq<Object>,
) -> Result<(), NoMemory>
    ensures { OnOk result (objects.new
        ≡ objects.old ++ blocks.object_of (around_in around.now) name.now named.now initial) }
{
    match named {
        Named::Variable(path, ty) => {
            let flags = Flags {
                is_port: false,
                is_property: false,
                is_traced: false,
            };
            let object = object_at(
                alloc,
                around,
                ObjectKind::Variable,
                flags,
                name.at,
                path.as_slice(),
                ty,
                initial,
            )?;
            objects.push(object)
        }
        _ => Ok(()),
    }
}

/// The object of a static variable whose declaration breaks no rule.
fn good_variable(
    alloc: Global,
    name: &Name,
    named: &Named,
    init: &Option<Init>,
    around: &Around,
    objects: &mut Seq<Object>,
) -> Result<Seq<Stmt>, Refusal>
    ensures { (rs : List routine) → Emits rs rs objects.old objects.new result
        (blocks.static_variable (around_in around.now) name.now (Good named.now) (option_map view.init init.now)) }
{
    match opening_of(alloc, name.at, named, init, around) {
        Ok(initial) => {
            add_object(alloc, name, named, initial, around, objects)?;
            Ok(Seq::new(alloc))
        }
        Err(e) => Err(e),
    }
}

/// The rule that a declaration breaks, beside what its initializer breaks by itself.
fn broken_variable(
    alloc: Global,
    name: &Name,
    fault: Fault,
    init: &Option<Init>,
    around: &Around,
) -> Result<Seq<Stmt>, Refusal>
    ensures { blocks.declared_variable (around_in around.now) name.now ≡ Broken fault → (rs : List routine) (os : List object_type)
        → Emits rs rs os os result (blocks.static_variable (around_in around.now) name.now (Broken fault) (option_map view.init init.now)) }
{
    match init {
        None => Err(fault.refusal()),
        Some(value) => {
            let told = assigned_first(alloc, name, value, &at_opening(around));
            guarded_code(told, opening_stands(value))
        }
    }
}

/// The object of a static variable, with its initial value.
fn static_variable(
    alloc: Global,
    name: &Name,
    init: &Option<Init>,
    around: &Around,
    objects: &mut Seq<Object>,
) -> Result<Seq<Stmt>, Refusal>
    ensures { (rs : List routine) → Emits rs rs objects.old objects.new result (blocks.static_variable (around_in around.now)
        name.now (blocks.declared_variable (around_in around.now) name.now) (option_map view.init init.now)) }
{
    match around.find(name.text.bytes()) {
        None => {
            let fault = Fault {
                at: name.at,
                rule: 6,
            };
            broken_variable(alloc, name, fault, init, around)
        }
        Some(found) => match &found.known.value {
            Checked::Good(named) => good_variable(alloc, name, named, init, around, objects),
            Checked::Broken(f) => broken_variable(alloc, name, *f, init, around),
        },
    }
}

// ---- declarations

/// One declared variable, by its life.
#[tactic(auto, using(crate::proofs::VariableLaws::automatic_code, crate::proofs::VariableLaws::static_code))]
fn declarator(
    alloc: Global,
    life: Life,
    one: &Declarator,
    around: &Around,
    objects: &mut Seq<Object>,
) -> Result<Seq<Stmt>, Refusal>
    ensures { (rs : List routine) → Emits rs rs objects.old objects.new result
        (blocks.declarator_code (around_in around.now) life (view.declarator one.now)) }
{
    if is_automatic(around.is_automatic, life) {
        return local_variable(alloc, &one.name, &one.init, around);
    }
    let object = static_variable(alloc, &one.name, &one.init, around, objects);
    guarded_code(object, word_stands(life, &one.init))
}

/// The variables of one declaration.
fn declarators(
    alloc: Global,
    life: Life,
    names: &[Declarator],
    around: &Around,
    objects: &mut Seq<Object>,
) -> Result<Seq<Stmt>, Refusal>
    ensures { (rs : List routine) → Emits rs rs objects.old objects.new result
        (blocks.declarators_code (around_in around.now) life (map view.declarator names.now)) }
{
    let mut done = nothing(alloc);
    for one in names {
        let made = declarator(alloc, life, one, around, objects);
        done = in_sequence(done, made);
    }
    done
}

/// What declarations become in the nearest scope, in order: objects behind those that stand so far, of the static variables, and statements that
/// give the others their first values. E25: an initializer of a static variable calls, or makes an object; E41: it needs the word `static`; E42:
/// a fixed array has one.
pub fn declarations(
    alloc: Global,
    declared: &[Decl],
    around: &Around,
    objects: &mut Seq<Object>,
) -> Result<Seq<Stmt>, Refusal>
    ensures { (rs : List routine) → Emits rs rs objects.old objects.new result
        (blocks.decls_code (around_in around.now) (map view.decl declared.now)) }
{
    let mut done = nothing(alloc);
    for one in declared {
        let names = one.names.as_slice();
        let made = declarators(alloc, one.life, names, around, objects);
        done = in_sequence(done, made);
    }
    done
}
