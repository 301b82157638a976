// Dimensions, and the types of declared variables (IEEE 1800-2017, 7.4 to 7.10): E6, E7, E11, E12, E15, E43.
ghost use Rattle.std.specs.Prelude.{◌≡◌, IfOk, option_map};
ghost use Rattle.sv_tree.specs.declared.expr.Root.TheVariants as root;
ghost use Rattle.sv_tree.specs.Expr as tree;
ghost use Rattle.sv_tree.specs.View as view;
ghost use Rattle.sv_tree.specs.StmtView.{type, dimension as dimension_in, range as range_in};
ghost use Rattle.sv_names.specs.declared.checked.Checked.{Checked as checked};
ghost use Rattle.sv_names.specs.declared.element.Element.{Element as element};
ghost use Rattle.sv_names.specs.declared.ty.Ty.{Ty as ty};
ghost use Rattle.sv_names.specs.Checked.{◌▷◌, both as both_of, given};
ghost use Rattle.sv_names.specs.Declarations as declarations;
ghost use Rattle.sv_names.specs.Values as values;
ghost use Rattle.sv_names.specs.Views.{around_in, meaning_in};
ghost use Rattle.sv_names.specs.Given.{Gives, GivesAs};
ghost use Rattle.sv_elab_type.specs.Shapes as shapes;
ghost use Rattle.sv_elab_type.specs.Shapes.{shape_in};

use crate::elements::{item_of, may_be_key};
use crate::enums::share_name;
use crate::types::{place_of_type, type_of};
use crate::vectors::{bound, bounds};
use std::alloc::Global;
use sv_elab_expr::sv_elab_value::counted;
use sv_elab_expr::{expr, place_of};
use sv_flat::Bounds;
use sv_names::{Around, Element, Key, Meaning, Named, Refusal, Ty, both, first};
use sv_tree::{Dimension, Expr, Name, Range, Root, WrittenType};
use sv_value::{NoMemory, Place, Text};

/// An array, whatever it holds.
#[derive(Drop)]
enum Shape {
    /// A dynamic array (7.5)
    Dynamic,
    /// A queue (7.10)
    Queue,
    /// A fixed array (7.4)
    Fixed(Bounds),
    /// An associative array by such keys (7.8)
    Keyed(Key),
}

/// The array of what it holds.
fn array_of(shape: Shape, item: Element) -> Ty
    ensures { result ≡ shape_in shape item }
{
    match shape {
        Shape::Dynamic => Ty::Dynamic(item),
        Shape::Queue => Ty::Queue(item),
        Shape::Fixed(bounds) => Ty::Fixed(bounds, item),
        Shape::Keyed(key) => Ty::Assoc(key, item),
    }
}

/// E11, E12, E15: a size of at least 1.
#[tactic(auto, using(crate::proofs::DimensionLaws::counted_is))]
fn size_of(alloc: Global, around: &Around, e: &Expr) -> Result<u64, Refusal>
    ensures { Gives result (declarations.bound (around_in around.now) (view.expr e.now)
        ▷ values.count_from (tree.place_of (view.expr e.now))) }
{
    let at = place_of(e);
    counted(at, expr(alloc, e, around))
}

/// E11, E12, E15: an array of a size.
fn sized_array(alloc: Global, around: &Around, e: &Expr) -> Result<Shape, Refusal>
    ensures { GivesAs shape_in result (declarations.sized_array (around_in around.now) (view.expr e.now)) }
{
    match size_of(alloc, around, e) {
        Ok(size) => {
            let bounds = bounds(0, i128::from(size) - 1)?;
            Ok(Shape::Fixed(bounds))
        }
        Err(e) => Err(e),
    }
}

/// E43: an array by keys of a type.
fn keyed_array(alloc: Global, at: Place, key: &Ty) -> Result<Shape, Refusal>
    ensures { GivesAs shape_in result (declarations.keyed_array at key.now) }
{
    match may_be_key(alloc, at, key) {
        Ok(key) => {
            let key = Key::new(alloc, key)?;
            Ok(Shape::Keyed(key))
        }
        Err(e) => Err(e),
    }
}

/// The same, where the type breaks no rule before.
fn keyed_by(alloc: Global, at: Place, key: Result<Ty, Refusal>) -> Result<Shape, Refusal>
    ensures { (x : checked ty) → Gives key x → GivesAs shape_in result (x ▷ declarations.keyed_array at) }
{
    match key {
        Ok(key) => keyed_array(alloc, at, &key),
        Err(e) => Err(e),
    }
}

/// A name alone as an expression.
fn name_alone(alloc: Global, name: &Name) -> Result<Expr, NoMemory>
    ensures { IfOk result (λ e. view.expr e ≡ tree.Post (root.Plain name.now) tree.NoSuffix) }
{
    let name = share_name(name)?;
    Ok(Expr::Post(Root::Plain(name), Vec::new(alloc)))
}

/// An array of the size that a name stands for.
fn sized_by_name(alloc: Global, around: &Around, name: &Name) -> Result<Shape, Refusal>
    ensures { GivesAs shape_in result
        (declarations.sized_array (around_in around.now) (tree.Post (root.Plain name.now) tree.NoSuffix)) }
{
    let e = name_alone(alloc, name)?;
    sized_array(alloc, around, &e)
}

/// A name alone in brackets names a type or a constant. E43: a class.
#[tactic(auto, using(crate::proofs::DimensionLaws::other_named))]
fn dimension_named(
    alloc: Global,
    around: &Around,
    name: &Name,
    meaning: Meaning,
) -> Result<Shape, Refusal>
    ensures { GivesAs shape_in result
        (declarations.dimension_named (around_in around.now) name.now (meaning_in meaning.entry)) }
{
    match meaning.named {
        Named::TypeName(ty) => keyed_array(alloc, name.at, ty),
        Named::ClassName(_) => Err(Refusal::Rule {
            rule: 43,
            at: name.at,
        }),
        _ => sized_by_name(alloc, around, name),
    }
}

/// What a name alone in brackets makes. E6, E7: it is not declared, or its declaration breaks a rule.
fn by_name(alloc: Global, around: &Around, name: &Name) -> Result<Shape, Refusal>
    ensures { GivesAs shape_in result (shapes.by_name (around_in around.now) name.now) }
{
    match around.meaning(name) {
        Ok(meaning) => dimension_named(alloc, around, name, meaning),
        Err(e) => Err(e),
    }
}

/// E11, E12, E15: an array with bounds.
fn bounded_array(alloc: Global, around: &Around, range: &Range) -> Result<Shape, Refusal>
    ensures { GivesAs shape_in result (shapes.bounded_array (around_in around.now) (range_in range.now)) }
{
    let left = bound(alloc, around, &range.left);
    let right = bound(alloc, around, &range.right);
    match both(left, right) {
        Ok((left, right)) => {
            let bounds = bounds(left, right)?;
            Ok(Shape::Fixed(bounds))
        }
        Err(e) => Err(e),
    }
}

/// What a dimension makes of a type.
fn dimension_of(
    alloc: Global,
    around: &Around,
    path: &[Text],
    dimension: &Dimension,
) -> Result<Shape, Refusal>
    ensures { GivesAs shape_in result
        (declarations.dimension_of (around_in around.now) path.now (dimension_in dimension.now)) }
{
    match dimension {
        Dimension::Empty(_) => Ok(Shape::Dynamic),
        Dimension::Size(_, e) => sized_array(alloc, around, e),
        Dimension::Bounds(range) => bounded_array(alloc, around, range),
        Dimension::Queue(_) => Ok(Shape::Queue),
        Dimension::Key(_, written) => {
            let key = type_of(alloc, around, path, written);
            keyed_by(alloc, place_of_type(written), key)
        }
        Dimension::Named(_, name) => by_name(alloc, around, name),
    }
}

/// The array of what it holds, where neither breaks a rule.
fn with_shape(item: Result<Element, Refusal>, shape: Result<Shape, Refusal>) -> Result<Ty, Refusal>
    ensures { (x : checked element) (y : checked (element → ty)) → Gives item x → GivesAs shape_in shape y
        → Gives result (given (λ q. q.1 q.0) (both_of x y)) }
{
    match item {
        Ok(item) => match shape {
            Ok(shape) => Ok(array_of(shape, item)),
            Err(f) => Err(f),
        },
        Err(e) => match shape {
            Ok(_) => Err(e),
            Err(f) => Err(first(e, f)),
        },
    }
}

/// The type of a declared variable.
pub fn declared_type(
    alloc: Global,
    around: &Around,
    path: &[Text],
    written: &WrittenType,
    dimension: &Option<Dimension>,
) -> Result<Ty, Refusal>
    ensures { Gives result (declarations.declared_type (around_in around.now) path.now (type written.now)
        (option_map dimension_in dimension.now)) }
{
    match dimension {
        None => type_of(alloc, around, path, written),
        Some(dimension) => {
            let t = type_of(alloc, around, path, written);
            let item = item_of(alloc, place_of_type(written), t);
            with_shape(item, dimension_of(alloc, around, path, dimension))
        }
    }
}
