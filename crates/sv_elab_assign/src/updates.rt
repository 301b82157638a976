// Assignments with an operator, `a++` and `a--` (IEEE 1800-2017, 11.4.1 and 11.4.2): E15, E16, E17, E42, E53.
ghost use Rattle.std.specs.Prelude.{◌≡◌};
ghost use Rattle.sv_tree.specs.Expr as tree;
ghost use Rattle.sv_names.specs.declared.checked.Checked.{Checked as checked};
ghost use Rattle.sv_names.specs.declared.typed.How.TheVariants as how;
ghost use Rattle.sv_names.specs.declared.typed.Typed.{Typed as typed};
ghost use Rattle.sv_names.specs.Assignments as assignments;
ghost use Rattle.sv_names.specs.Expressions as expressions;
ghost use Rattle.sv_names.specs.Given.{Gives};
ghost use Rattle.sv_names.specs.Named.{Around as around_of};
ghost use Rattle.sv_names.specs.Views.{around_in};
ghost use Rattle.sv_elab_assign.specs.Forms as forms;
ghost use Rattle.sv_elab_assign.specs.Places as places;

use crate::beside::{also_broken, only};
use std::alloc::Global;
use sv_elab_call::sv_elab_select::{Spot, read_lvalues, read_of, type_of_target};
use sv_elab_operator::{binary, number};
use sv_elab_value::assigned;
use sv_flat::{Expr, Form, Lvalue};
use sv_names::{Around, Checked, Hoisted, Refusal, Ty, Typed, answer, judged};
use sv_tree::{BinaryWord, StepWord};
use sv_value::{Place, Seq};

/// A value for targets whose calls stand with it.
fn assign_beside(targets: Seq<Lvalue>, value: Hoisted<Expr>) -> Hoisted<Form>
    ensures { result ≡ forms.assign_beside targets value }
{
    Hoisted {
        hidden: value.hidden,
        calls: value.calls,
        value: Form::Assign {
            targets,
            value: value.value,
        },
    }
}

/// E16, E17: the same, where it fits them.
fn written_back(
    alloc: Global,
    around: &Around,
    to: &Ty,
    at: Place,
    targets: Seq<Lvalue>,
    value: Typed,
) -> Result<Hoisted<Form>, Refusal>
    ensures { Gives result (forms.written_back (around_in around.now) to.now at targets value) }
{
    match assigned(alloc, around, to, at, value) {
        Ok(code) => Ok(assign_beside(targets, code)),
        Err(e) => Err(e),
    }
}

/// An operator between what stands in a target and its operand; the calls of the target stand once.
fn read_and_written(
    alloc: Global,
    around: &Around,
    left: Place,
    right: Place,
    word: BinaryWord,
    spots: Seq<Spot>,
    value: Checked<Typed>,
) -> Result<Hoisted<Form>, Refusal>
    ensures { Gives result (assignments.read_and_written (around_in around.now) left right word spots value) }
{
    let to = type_of_target(alloc, spots.as_slice())?;
    let targets = read_lvalues(alloc, around, spots.as_slice())?;
    let read = read_of(alloc, left, spots)?;
    let operand = answer(value);
    match binary(
        alloc,
        around.classes,
        word,
        left,
        left,
        right,
        Ok(read),
        operand,
    ) {
        Ok(t) => written_back(alloc, around, &to, right, targets, t),
        Err(e) => Err(e),
    }
}

/// `a op= e` (11.4.1), of a target at `left` and an operand at `right` that is elaborated behind the target (`operand_around`). E15, E42
/// and E53: the operator does not take them; E16 and E17: its result does not fit the target.
pub fn update(
    alloc: Global,
    around: &Around,
    word: BinaryWord,
    left: Place,
    target: Checked<Seq<Spot>>,
    right: Place,
    value: Checked<Typed>,
) -> Result<Hoisted<Form>, Refusal>
    ensures { (l : tree.Lval) (v : around_of → checked typed) → left ≡ assignments.place_of_lval l
        → target ≡ expressions.target how.Statement (around_in around.now) l
        → value ≡ v (places.operand_around (around_in around.now) target)
        → Gives result (assignments.updated (around_in around.now) l word right v) }
{
    match target {
        Checked::Good(spots) => { read_and_written(alloc, around, left, right, word, spots, value) }
        Checked::Broken(f) => also_broken(f, &only(&value)),
    }
}

/// The operator of `++` and `--`.
fn step_word(word: StepWord) -> BinaryWord
    ensures { result ≡ assignments.step_word word }
{
    match word {
        StepWord::Increment => BinaryWord::Plus,
        StepWord::Decrement => BinaryWord::Minus,
    }
}

/// `a++` and `a--` (11.4.2), of a target at `at`: 1 of type int is added or subtracted. E15 and E42: the target is no number; E17: it is an
/// enum.
pub fn step(
    alloc: Global,
    around: &Around,
    word: StepWord,
    at: Place,
    target: Checked<Seq<Spot>>,
) -> Result<Hoisted<Form>, Refusal>
    ensures { (l : tree.Lval) → at ≡ assignments.place_of_lval l
        → target ≡ expressions.target how.Statement (around_in around.now) l
        → Gives result (assignments.stepped (around_in around.now) l word) }
{
    let one = judged(number(alloc, at, b"1"))?;
    update(alloc, around, step_word(word), at, target, at, one)
}
