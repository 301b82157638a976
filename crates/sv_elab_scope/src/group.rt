// A scope with its classes, which are settled together (IEEE 1800-2017, 8.13 and 23.9).
ghost use Rattle.std.specs.Prelude.{◌≡◌, IfOk};
ghost use Rattle.std.specs.Vec.Iter.{into_iter_items};
ghost use Rattle.sv_elab_scope.specs.Rows.{group_in};
ghost use Rattle.sv_elab_scope.specs.Settling as settling;
ghost use Rattle.sv_elab_scope.specs.Settling.{first_row, more_rows};

use std::alloc::Global;
use std::vec;
use sv_names::{Checked, ClassInfo, Named, Scope};
use sv_value::{NoMemory, Seq};

/// A scope with its classes.
#[derive(Drop)]
pub struct Group {
    /// The scope.
    pub scope: Scope,
    /// Its classes in order.
    pub classes: Seq<ClassInfo>,
}

/// New values of the declarations of a scope, where there are such.
pub type Values = Seq<Option<Checked<Named>>>;

/// The first of lists, where there is one.
fn next_row<T: Drop>(alloc: Global, rows: &mut vec::IntoIter<Seq<T>>) -> Seq<T>
    ensures value { result ≡ first_row (into_iter_items rows.old) }
    ensures rest { into_iter_items rows.new ≡ more_rows (into_iter_items rows.old) }
{
    match rows.next() {
        Some(row) => row,
        None => Seq::new(alloc),
    }
}

/// A scope with other values.
fn scope_with(alloc: Global, scope: Scope, values: Values) -> Result<Scope, NoMemory>
    ensures { IfOk result (λ s. s ≡ settling.scope_with scope values) }
{
    let Scope {
        path,
        class,
        enters,
        known,
    } = scope;
    let known = known.with_values(alloc, values)?;
    Ok(Scope {
        path,
        class,
        enters,
        known,
    })
}

/// A class whose members have other values.
fn class_with(alloc: Global, class: ClassInfo, values: Values) -> Result<ClassInfo, NoMemory>
    ensures { IfOk result (λ k. k ≡ settling.class_with class values) }
{
    let ClassInfo {
        path,
        name,
        is_virtual,
        base,
        base_fault,
        scope,
        slots,
    } = class;
    let scope = scope_with(alloc, scope, values)?;
    Ok(ClassInfo {
        path,
        name,
        is_virtual,
        base,
        base_fault,
        scope,
        slots,
    })
}

/// Classes whose members have other values.
fn classes_with(
    alloc: Global,
    classes: Seq<ClassInfo>,
    mut values: vec::IntoIter<Values>,
) -> Result<Seq<ClassInfo>, NoMemory>
    ensures { IfOk result (λ ks. ks ≡ settling.classes_with classes (into_iter_items values)) }
{
    let mut renewed = Seq::new(alloc);
    let mut left = classes.into_vec().into_iter();
    while let Some(class) = left.next() {
        let row = next_row(alloc, &mut values);
        let class = class_with(alloc, class, row)?;
        renewed.push(class)?;
    }
    Ok(renewed)
}

/// A group with other values: the first list is of the scope itself, those behind it of the members of each class.
pub fn group_with(alloc: Global, group: Group, values: Seq<Values>) -> Result<Group, NoMemory>
    ensures { IfOk result (λ g. group_in g ≡ settling.group_with (group_in group) values) }
{
    let Group { scope, classes } = group;
    let mut values = values.into_vec().into_iter();
    let own = next_row(alloc, &mut values);
    let scope = scope_with(alloc, scope, own)?;
    let classes = classes_with(alloc, classes, values)?;
    Ok(Group { scope, classes })
}
