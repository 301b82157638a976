// Names that write and call nothing: most names of a text are those of objects, alone or with selects by numbers (IEEE 1800-2017, 11.5).
ghost use Rattle.std.specs.Prelude.{◌≡◌, [], true, IfSome};
ghost use Rattle.sv_value.specs.declared.place.Place.{Place as place};
ghost use Rattle.sv_tree.specs.Expr as tree;
ghost use Rattle.sv_tree.specs.View as view;
ghost use Rattle.sv_names.specs.declared.checked.Checked.{Checked as checked};
ghost use Rattle.sv_names.specs.declared.typed.How.{How as how};
ghost use Rattle.sv_names.specs.Named as names;
ghost use Rattle.sv_names.specs.Things.{Thing as thing, root_thing};
ghost use Rattle.sv_names.specs.Writers as writers;
ghost use Rattle.sv_names.specs.Views.{around_in};
ghost use Rattle.sv_elab_expr.specs.Walk.{stepped};
ghost use Rattle.sv_elab_touch.specs.Touched.{is_value, step_touches, alone_touches};

use sv_names::{Around, Named};
use sv_tree::{Expr, Root, Suffix};
use sv_value::Text;

/// Whether a name is that of a variable, a net or a constant.
pub(crate) fn is_object(root: &Root, around: &Around) -> bool
    ensures { result ≡ true → is_value (root_thing (around_in around.now) root.now) ≡ true }
{
    match root {
        Root::Plain(name) => match around.value_meaning(name) {
            Ok(meaning) => match meaning.named {
                Named::Variable(_, _) => true,
                Named::Net(_, _) => true,
                Named::Input { .. } => true,
                Named::Local { .. } => true,
                Named::Constant(_, _) => true,
                _ => false,
            },
            Err(_) => false,
        },
        _ => false,
    }
}

/// Whether an expression is a number, which writes and calls nothing.
fn is_number(e: &Expr) -> bool
    ensures { (ar : names.Around) → result ≡ true → writers.expr_touches ar (view.expr e.now) ≡ [] }
{
    match e {
        Expr::Number(_, _) => true,
        _ => false,
    }
}

/// Whether a suffix selects by a number.
fn by_number(suffix: &Suffix) -> bool
    ensures nothing { (ar : names.Around) (th : checked thing) (rest : tree.Suffixes) → result ≡ true → is_value th ≡ true
        → step_touches ar th (view.suffix suffix.now rest) ≡ [] }
    ensures value { (ar : names.Around) (pe : place) (th : checked thing) (rest : tree.Suffixes) → result ≡ true
        → is_value (stepped ar pe th (view.suffix suffix.now rest)) ≡ true }
{
    match suffix {
        Suffix::Select(_, index) => is_number(index),
        Suffix::Part { left, .. } => is_number(left),
        _ => false,
    }
}

/// Whether suffixes are selects by numbers alone, which write and call nothing behind a value.
#[tactic(auto, using(crate::proofs::QuietLaws::quiet_first))]
pub(crate) fn are_numbers(suffixes: &[Suffix]) -> bool
    ensures { (ar : names.Around) (pe : place) (th : checked thing) → result ≡ true → is_value th ≡ true
        → writers.suffix_touches ar pe th (view.suffix_list suffixes.now) ≡ [] }
{
    match suffixes {
        [] => true,
        [suffix, rest @ ..] => by_number(suffix) && are_numbers(rest),
    }
}

/// What a name alone writes as a target, whichever rules it breaks.
pub(crate) enum Alone<'a> {
    /// A variable, by its path.
    Variable(&'a [Text]),
    /// A net, an input or a constant, which no statement writes.
    Nothing,
}

/// What a name alone writes, where it is that of a variable, a net, an input or a constant.
#[tactic(auto, using(crate::proofs::QuietLaws::alone_written))]
pub(crate) fn written_alone<'a>(root: &Root, around: &Around<'a>) -> Option<Alone<'a>>
    ensures { (h : how) → IfSome result (λ a. writers.part_touches h (around_in around.now) root.now tree.NoSuffix
        ≡ alone_touches (tree.place_of_root root.now) a) }
{
    match root {
        Root::Plain(name) => match around.value_meaning(name) {
            Ok(meaning) => match meaning.named {
                Named::Variable(path, _) => Some(Alone::Variable(path.as_slice())),
                Named::Net(_, _) => Some(Alone::Nothing),
                Named::Input { .. } => Some(Alone::Nothing),
                Named::Constant(_, _) => Some(Alone::Nothing),
                _ => None,
            },
            Err(_) => None,
        },
        _ => None,
    }
}
