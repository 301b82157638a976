// The first tokens of types and expressions, and the places of constants.
ghost use Rattle.std.specs.Prelude.{◌≡◌};
ghost use Rattle.sv_tree.specs.Expr as tree;
ghost use Rattle.sv_tree.specs.View.{expr};
ghost use Rattle.sv_tree.specs.StmtView.{type};
ghost use Rattle.sv_names.specs.Entries as entries;
ghost use Rattle.sv_names.specs.Rounds as rounds;
ghost use Rattle.sv_elab_scope.specs.Views.{source_in, entry_in};

use crate::declared::{Declared, Entry, Source};
use sv_tree::{CastType, Expr, Root, WrittenType};
use sv_value::Place;

/// The place of the first token of a root.
fn place_of_root(root: &Root) -> Place
    ensures { result ≡ tree.place_of_root root.now }
{
    match root {
        Root::This(at) => *at,
        Root::Super(at, _) => *at,
        Root::Plain(name) => name.at,
        Root::Scoped(scope, _) => scope.at,
    }
}

/// The place of the first token of a cast.
fn place_of_cast(to: &CastType) -> Place
    ensures { result ≡ tree.place_of_cast to.now }
{
    match to {
        CastType::Vector(at, _) => *at,
        CastType::Atom(at, _) => *at,
        CastType::Text(at) => *at,
        CastType::Event(at) => *at,
        CastType::Semaphore(at) => *at,
        CastType::Mailbox(at) => *at,
        CastType::Named(name) => name.at,
        CastType::Width(at, _) => *at,
    }
}

/// The place of the first token of an expression.
fn place_of(e: &Expr) -> Place
    ensures { result ≡ tree.place_of (expr e.now) }
{
    match e {
        Expr::Number(at, _) => *at,
        Expr::Time(at, _) => *at,
        Expr::Text(at, _) => *at,
        Expr::Null(at) => *at,
        Expr::Dollar(at) => *at,
        Expr::Group(at, _) => *at,
        Expr::Post(root, _) => place_of_root(root),
        Expr::System(name, _) => name.at,
        Expr::SuperNew { at, .. } => *at,
        Expr::Join(at, _) => *at,
        Expr::Repeat { at, .. } => *at,
        Expr::Cast(to, _) => place_of_cast(to),
        Expr::Unary { at, .. } => *at,
        Expr::Binary { left, .. } => place_of(left),
        Expr::Choose { condition, .. } => place_of(condition),
    }
}

/// The place of the first token of a type.
pub fn place_of_type(ty: &WrittenType) -> Place
    ensures { result ≡ entries.place_of_type (type ty.now) }
{
    match ty {
        WrittenType::Vector { at, .. } => *at,
        WrittenType::Atom { at, .. } => *at,
        WrittenType::Text(at) => *at,
        WrittenType::Event(at) => *at,
        WrittenType::Semaphore(at) => *at,
        WrittenType::Mailbox(at) => *at,
        WrittenType::MailboxOf(at, _) => *at,
        WrittenType::Named(name) => name.at,
        WrittenType::Enum(at, _) => *at,
        WrittenType::EnumOf { at, .. } => *at,
    }
}

/// The place of a value that must be constant.
fn place_of_source(source: Source) -> Place
    ensures { result ≡ rounds.place_of_source (source_in source.entry) }
{
    match source {
        Source::Own(e) => place_of(e),
        Source::Given(at, _) => at,
    }
}

/// Where the value of a parameter or of an item of an enum stands.
pub fn constant_place(entry: &Entry) -> Option<Place>
    ensures { result ≡ rounds.constant_place (entry_in entry.now) }
{
    match &entry.what {
        Declared::Parameter(_, source) => Some(place_of_source(*source)),
        Declared::Item {
            value: Some(value),
            ..
        } => Some(place_of(value)),
        Declared::Item { value: None, .. } => Some(entry.name.at),
        _ => None,
    }
}
