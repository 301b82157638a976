// `name` of an enum, and its items (IEEE 1800-2017, 6.19).
ghost use Rattle.std.specs.Prelude.{◌≡◌, map, IfOk, IfErr};
ghost use Rattle.sv_flat.specs.declared.expr.NamedItem.{NamedItem as item_of};
ghost use Rattle.sv_flat.specs.Expr as flat;
ghost use Rattle.sv_names.specs.declared.refusal.Refusal.TheVariants.{Memory};
ghost use Rattle.sv_names.specs.Calls as calls;
ghost use Rattle.sv_names.specs.Given.{Gives};
ghost use Rattle.sv_names.specs.Hoisted as hoisted;
ghost use Rattle.sv_names.specs.Joined.{joined};
ghost use Rattle.sv_names.specs.Views.{around_in};
ghost use Rattle.sv_elab_method.specs.Items as items;
ghost use Rattle.sv_elab_method.specs.Steps as steps;

use crate::given::operator;
use std::alloc::Global;
use sv_elab_value::{alone, bits_of, expr_of};
use sv_flat::{Expr, ExprForm, NamedItem};
use sv_names::{
    Around, Called, Checked, ClassInfo, Hoisted, Kind, Known, Named, Refusal, Scope, Ty, Typed,
    answer, earlier_in, judged, same_path, same_place,
};
use sv_tree::Name;
use sv_value::{Place, Seq, Text};

// ---- the items among declarations

/// Whether it is an item of the enum with this first token.
fn is_item_at(at: Place, kind: Kind) -> bool
    ensures { result ≡ calls.is_item_at at kind }
{
    match kind {
        Kind::Item(place) => same_place(at, place),
        _ => false,
    }
}

/// The value of an item.
fn item_named(alloc: Global, name: &Name, named: &Named) -> Result<Seq<NamedItem>, Refusal>
    ensures ok { IfOk result (λ is. is ≡ calls.item_named name.now named.now) }
    ensures err { IfErr result (λ e. e ≡ Memory) }
{
    let mut items = Seq::new(alloc);
    match named {
        Named::Constant(t, _) => {
            let value = bits_of(&t.get().code.value)?;
            let mut text = Seq::new(alloc);
            text.push_all(name.text.bytes())?;
            items.push(NamedItem { value, name: text })?;
        }
        _ => {}
    }
    Ok(items)
}

/// Items, and more behind them.
fn and_items(
    list: Checked<Seq<NamedItem>>,
    more: Checked<Seq<NamedItem>>,
) -> Result<Checked<Seq<NamedItem>>, Refusal>
    ensures ok { IfOk result (λ c. c ≡ joined list more) }
    ensures err { IfErr result (λ e. e ≡ Memory) }
{
    match list {
        Checked::Good(first) => match more {
            Checked::Good(rest) => {
                let mut all = first.into_vec();
                let mut rest = rest.into_vec();
                all.append(&mut rest)?;
                Ok(Checked::Good(Seq::from_vec(all)))
            }
            Checked::Broken(f) => Ok(Checked::Broken(f)),
        },
        Checked::Broken(f) => Ok(Checked::Broken(earlier_in(f, &more))),
    }
}

/// The item that a declaration is, or the rule that it breaks.
fn item_of(alloc: Global, known: &Known) -> Result<Seq<NamedItem>, Refusal>
    ensures { Gives result (items.item_of known.now) }
{
    match &known.value {
        Checked::Good(named) => {
            let items = item_named(alloc, &known.name, named)?;
            Ok(items)
        }
        Checked::Broken(f) => Err(f.refusal()),
    }
}

/// Items, and that of a declaration behind them, where it is one of the enum.
fn and_known(
    alloc: Global,
    at: Place,
    list: Checked<Seq<NamedItem>>,
    known: &Known,
) -> Result<Checked<Seq<NamedItem>>, Refusal>
    ensures ok { IfOk result (λ c. c ≡ joined list (items.one_known at known.now)) }
    ensures err { IfErr result (λ e. e ≡ Memory) }
{
    if is_item_at(at, known.kind) {
        let more = judged(item_of(alloc, known))?;
        and_items(list, more)
    } else {
        Ok(list)
    }
}

/// The items of an enum among declarations, with their values.
#[tactic(auto, using(sv_names::proofs::Joined::joined_first, sv_names::proofs::Joined::joined_last))]
fn items_known(
    alloc: Global,
    at: Place,
    known: &[Known],
) -> Result<Checked<Seq<NamedItem>>, Refusal>
    ensures ok { IfOk result (λ c. c ≡ calls.items_known at known.now) }
    ensures err { IfErr result (λ e. e ≡ Memory) }
{
    let mut list = Checked::Good(Seq::new(alloc));
    for declaration in known {
        list = and_known(alloc, at, list, declaration)?;
    }
    Ok(list)
}

// ---- in its own scope

/// Items, and those in a scope behind them, where it is the enum's own.
fn and_scope(
    alloc: Global,
    path: &[Text],
    at: Place,
    list: Checked<Seq<NamedItem>>,
    scope: &Scope,
) -> Result<Checked<Seq<NamedItem>>, Refusal>
    ensures ok { IfOk result (λ c. c ≡ joined list (items.one_scope path.now at scope.now)) }
    ensures err { IfErr result (λ e. e ≡ Memory) }
{
    if same_path(path, scope.path.as_slice()) {
        let more = items_known(alloc, at, scope.known.as_slice())?;
        and_items(list, more)
    } else {
        Ok(list)
    }
}

/// The items of an enum in scopes.
#[tactic(auto, using(sv_names::proofs::Joined::joined_first, sv_names::proofs::Joined::joined_last))]
fn items_in_scopes(
    alloc: Global,
    path: &[Text],
    at: Place,
    scopes: &[&Scope],
) -> Result<Seq<NamedItem>, Refusal>
    ensures { Gives result (calls.items_in_scopes path.now at (map (λ s. s.now) scopes.now)) }
{
    let mut list = Checked::Good(Seq::new(alloc));
    for scope in scopes {
        list = and_scope(alloc, path, at, list, *scope)?;
    }
    answer(list)
}

/// The items of an enum in classes.
#[tactic(auto, using(sv_names::proofs::Joined::joined_first, sv_names::proofs::Joined::joined_last))]
fn items_in_classes(
    alloc: Global,
    path: &[Text],
    at: Place,
    classes: &[&ClassInfo],
) -> Result<Seq<NamedItem>, Refusal>
    ensures { Gives result (calls.items_in_scopes path.now at (map (λ k. k.scope) (map (λ k. k.now) classes.now))) }
{
    let mut list = Checked::Good(Seq::new(alloc));
    for class in classes {
        let class: &ClassInfo = *class;
        list = and_scope(alloc, path, at, list, &class.scope)?;
    }
    answer(list)
}

/// The items of an enum: those of the scopes around, or else those of a class.
fn items_of(
    alloc: Global,
    around: &Around,
    path: &[Text],
    at: Place,
) -> Result<Seq<NamedItem>, Refusal>
    ensures { Gives result (items.items_of (around_in around.now) path.now at) }
{
    match items_in_scopes(alloc, path, at, around.scopes) {
        Ok(items) => {
            if items.as_slice().is_empty() {
                items_in_classes(alloc, path, at, around.classes)
            } else {
                Ok(items)
            }
        }
        Err(e) => Err(e),
    }
}

/// The items of an enum, with their values; of another type none.
#[tactic(auto, using(crate::proofs::ItemLaws::enum_is, crate::proofs::ItemLaws::enum_other))]
fn enum_items(alloc: Global, around: &Around, ty: &Ty) -> Result<Seq<NamedItem>, Refusal>
    ensures { Gives result (calls.enum_items (around_in around.now) ty.now) }
{
    match ty {
        Ty::Enum { scope, at, .. } => items_of(alloc, around, scope.as_slice(), *at),
        _ => Ok(Seq::new(alloc)),
    }
}

// ---- `name`

/// The name of the item that has a value.
fn name_code(
    alloc: Global,
    items: Seq<NamedItem>,
    code: Hoisted<Expr>,
) -> Result<Hoisted<Expr>, Refusal>
    ensures ok { IfOk result (λ c. c ≡ hoisted.mapped (flat.Name items) code) }
    ensures err { IfErr result (λ e. e ≡ Memory) }
{
    let value = expr_of(
        alloc,
        ExprForm::Name {
            items,
            operand: code.value,
        },
    )?;
    Ok(Hoisted {
        hidden: code.hidden,
        calls: code.calls,
        value,
    })
}

/// `name` of a value of an enum, or the rule that one of its items breaks.
pub(crate) fn name(
    alloc: Global,
    around: &Around,
    at: Place,
    item: Typed,
) -> Result<Called, Refusal>
    ensures { Gives result (steps.name (around_in around.now) at item) }
{
    let is_constant = item.is_constant;
    match enum_items(alloc, around, &item.ty) {
        Ok(items) => {
            let code = name_code(alloc, items, alone(alloc, item)?)?;
            Ok(operator(alloc, at, Ty::Text, is_constant, code))
        }
        Err(e) => Err(e),
    }
}
