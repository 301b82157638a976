// The constructors of classes, written or implied (IEEE 1800-2017, 8.7, 8.15 and 8.17).
ghost use Rattle.std.specs.Prelude.{◌≡◌, ◌∷◌, [], true, None, List, map, option_map, IfOk, IfErr};
ghost use Rattle.sv_flat.specs.declared.class.Routine.{Routine as routine_type};
ghost use Rattle.sv_flat.specs.declared.object.Object.{Object as object_type};
ghost use Rattle.sv_tree.specs.UnitView.{class_item, method};
ghost use Rattle.sv_names.specs.declared.refusal.Refusal.TheVariants.{Memory};
ghost use Rattle.sv_names.specs.Classes as classes;
ghost use Rattle.sv_names.specs.Emits.{Emits};
ghost use Rattle.sv_names.specs.Subroutines as subroutines;
ghost use Rattle.sv_names.specs.Views.{around_in};
ghost use Rattle.sv_elab_routine.specs.Bodies as bodies;
ghost use Rattle.sv_elab_routine.specs.Made as words;

use crate::bodies::routine_with;
use crate::routines::subroutine_made;
use std::alloc::Global;
use sv_elab_before::sv_elab_flow::enclosed;
use sv_elab_before::{Before, Opening, after_opening, constructor_before, opening_of, this_scope};
use sv_elab_declare::is_constructor;
use sv_elab_object::{home_of, locals_of};
use sv_elab_scope::DeclaredRoutine;
use sv_elab_subroutine::in_body;
use sv_flat::{Direction, Formal, Object, Routine, Subroutine, Variable};
use sv_names::{Around, ClassInfo, Refusal, Returns, Scope, Ty, copy_path};
use sv_tree::{ClassItem, Method};
use sv_value::{Seq, Text};

// ---- written

/// A constructor that is written.
fn written_constructor(
    alloc: Global,
    around: &Around,
    class: &ClassInfo,
    items: &[ClassItem],
    of: &Method,
    routines: &mut Seq<Routine>,
    objects: &mut Seq<Object>,
) -> Result<Routine, Refusal>
    ensures { Emits routines.old routines.new objects.old objects.new result (words.routine_of
        (subroutines.written_constructor (around_in around.now) class.now (map class_item items.now) (method of.now))) }
{
    let path = class.path.as_slice();
    let routine = DeclaredRoutine {
        qualifiers: of.qualifiers,
        class: Some(path),
        routine: &of.routine,
    };
    let list = of.routine.stmts.as_slice();
    let at = of.routine.head.name.at;
    let before = Before::Construction {
        class,
        items,
        at,
        opening: opening_of(list),
    };
    let rest = after_opening(list);
    subroutine_made(
        alloc, around, path, &routine, before, rest, routines, objects,
    )
}

// ---- implied

/// The object of a constructor that is not written, as its only argument.
fn object_formals(alloc: Global, around: &Around, class: &[Text]) -> Result<Seq<Formal>, Refusal>
    ensures ok { IfOk result (λ fs. fs ≡ words.object_formals (around_in around.now) class.now) }
    ensures err { IfErr result (λ e. e ≡ Memory) }
{
    let ty = Ty::Class(copy_path(alloc, class)?);
    let mut formals = Seq::new(alloc);
    formals.push(Formal {
        direction: Direction::Input,
        variable: Variable::Local(0),
        ty: around.numbers.data_of(&ty),
    })?;
    Ok(formals)
}

/// A constructor that is not written, whose scope knows the object alone.
fn implied_subroutine(
    alloc: Global,
    around: &Around,
    class: &ClassInfo,
    scope: &Scope,
) -> Result<Subroutine, Refusal>
    ensures ok { IfOk result (λ s. s ≡ words.implied_subroutine (around_in around.now) class.now.path scope.now) }
    ensures err { IfErr result (λ e. e ≡ Memory) }
{
    let formals = object_formals(alloc, around, class.path.as_slice())?;
    let locals = locals_of(alloc, scope, around)?;
    Ok(Subroutine {
        is_function: true,
        is_automatic: true,
        home: home_of(around),
        formals,
        result: None,
        locals,
    })
}

/// The routine of a constructor that is not written, in its scope.
fn implied_within(
    alloc: Global,
    around: &Around,
    class: &ClassInfo,
    items: &[ClassItem],
    scope: &Scope,
) -> Result<Routine, Refusal>
    ensures { (rs : List routine_type) (os : List object_type) → Emits rs rs os os result
        (words.implied_within (around_in around.now) class.now (map class_item items.now) scope.now) }
{
    let outer = *around;
    let scopes = enclosed(alloc, &*scope, outer.scopes)?;
    let path = scope.path.as_slice();
    let inner = in_body(
        &outer,
        path,
        scopes.as_slice(),
        true,
        true,
        true,
        &Returns::NoValue,
    );
    let subroutine = implied_subroutine(alloc, around, class, scope)?;
    let at = class.name.at;
    let body = constructor_before(alloc, around, &inner, class, items, at, Opening::NoSuper);
    routine_with(at, subroutine, body)
}

/// A constructor that is not written.
fn implied_constructor(
    alloc: Global,
    around: &Around,
    class: &ClassInfo,
    items: &[ClassItem],
) -> Result<Routine, Refusal>
    ensures { (rs : List routine_type) (os : List object_type) → Emits rs rs os os result
        (words.routine_of (subroutines.implied_constructor (around_in around.now) class.now (map class_item items.now))) }
{
    let scope = this_scope(alloc, class.path.as_slice(), class.name.at)?;
    implied_within(alloc, around, class, items, &scope)
}

// ---- both

/// The constructor that an item writes, if it is one.
fn constructor_item(item: &ClassItem) -> Option<&Method>
    ensures { option_map (λ m. method m.now) result ≡ words.constructor_item (class_item item.now) }
{
    match item {
        ClassItem::Method(of) => {
            if is_constructor(&of.routine.head) {
                Some(of)
            } else {
                None
            }
        }
        _ => None,
    }
}

/// The constructor that is written among items, if there is one.
fn constructor_among(items: &[ClassItem]) -> Option<&Method>
    ensures { option_map (λ m. method m.now) result ≡ words.constructor_among (map class_item items.now) }
{
    match items {
        [] => None,
        [first, rest @ ..] => match constructor_item(first) {
            Some(of) => Some(of),
            None => constructor_among(rest),
        },
    }
}

/// The constructor of a class with these items, written or implied: it calls the constructor of the base, initializes the properties, and then
/// runs its own statements. E38: `super.new` in a class that extends none; E40: the constructor of the base needs arguments; E42: a fixed array
/// has an initializer; and what its declarations and statements break.
#[tactic(auto, using(crate::proofs::MadeLaws::constructor_chosen))]
pub fn constructor_made(
    alloc: Global,
    around: &Around,
    class: &ClassInfo,
    items: &[ClassItem],
    routines: &mut Seq<Routine>,
    objects: &mut Seq<Object>,
) -> Result<Routine, Refusal>
    ensures { Emits routines.old routines.new objects.old objects.new result (words.routine_of
        (classes.constructor_of (around_in around.now) class.now (map class_item items.now) (map class_item items.now))) }
{
    match constructor_among(items) {
        None => implied_constructor(alloc, around, class, items),
        Some(of) => written_constructor(alloc, around, class, items, of, routines, objects),
    }
}
