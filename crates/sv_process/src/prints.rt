// Prints (IEEE 1800-2017, 21.2).
ghost use Rattle.std.specs.Prelude.{◌≡◌, ◌≤◌, ◌∷◌, ◌++◌, [], Some, List, IfOk, OnOk, length, drop};
ghost use Rattle.sv_value.specs.declared.operator.Piece.{Piece};
ghost use Rattle.sv_value.specs.Digits.{rendered};
ghost use Rattle.sv_flat.specs.declared.stmt.Form.TheVariants as form;
ghost use Rattle.sv_flat.specs.declared.stmt.PrintKind.TheVariants as print;
ghost use Rattle.sv_flat.specs.Eval as eval;
ghost use Rattle.sv_flat.specs.Process.{Print_text, Keep_print};
ghost use Rattle.sv_flat.specs.Statements.Shared.{goes_on, values_of, from_result};
ghost use Rattle.sv_assign.specs.Places.{Answers};
ghost use Rattle.sv_built.specs.Positions.{stmt_at};
ghost use Rattle.sv_stack.specs.Frames.{todos_of};
ghost use Rattle.sv_stack.specs.Effects.{Leaves, Does, IsKept};
ghost use Rattle.sv_process.specs.Parts.{text_of};

use std::alloc::Global;
use sv_built::{Design, Position};
use sv_eval::{Stopped, Values, printed_field, value};
use sv_flat::{Expr, Stmt};
use sv_stack::{Effect, Frames, pass_with};
use sv_value::{FaultKind, NoMemory, Piece, Text, Val};

/// The values of expressions, from the left.
#[tactic(auto, using(crate::proofs::PrintLemmas::no_value_yet, crate::proofs::PrintLemmas::one_value, crate::proofs::PrintLemmas::no_value, crate::proofs::PrintLemmas::all_values))]
pub fn values_of<V: Values>(alloc: Global, values: &V, exprs: &[Expr]) -> Result<Vec<Val>, Stopped>
    ensures { Answers (λ xs. xs.items) result (values_of exprs.now (V.view values.now)) }
{
    let mut all = Vec::new(alloc);
    for expr in exprs {
        let x = value(alloc, values, expr)?;
        append(&mut all, x)?;
    }
    Ok(all)
}

/// A value comes behind the others.
fn append(all: &mut Vec<Val>, value: Val) -> Result<(), NoMemory>
    ensures { OnOk result (all.new.items ≡ all.old.items ++ value ∷ []) }
{
    all.push(value)?;
    Ok(())
}

/// Appends what a piece prints, and gives the place of the value for the next field.
fn push_piece(
    alloc: Global,
    unit: u64,
    piece: &Piece,
    values: &[Val],
    place: usize,
    text: &mut Text,
) -> Result<usize, NoMemory>
    requires within { place ≤ length values.now }
    ensures within { IfOk result (λ next. next ≤ length values.now) }
    ensures text { IfOk result (λ next. (ps : List Piece)
        → text.new ++ rendered unit ps (drop next values.now) ≡ text.old ++ rendered unit (piece.now ∷ ps) (drop place values.now)) }
{
    match piece {
        Piece::Plain(plain) => {
            text.push_all(plain.bytes())?;
            Ok(place)
        }
        Piece::Field(field, pad) => match values.get(place) {
            Some(x) => {
                let printed = printed_field(alloc, *field, *pad, unit, x)?;
                text.push_all(printed.bytes())?;
                Ok(place + 1)
            }
            None => Ok(place),
        },
    }
}

/// The text of pieces with values for their fields.
pub fn rendered(
    alloc: Global,
    unit: u64,
    pieces: &[Piece],
    values: &[Val],
) -> Result<Text, NoMemory>
    ensures { IfOk result (λ t. t ≡ rendered unit pieces.now values.now) }
{
    let mut text = Text::new(alloc);
    let mut place = 0;
    for piece in pieces {
        place = push_piece(alloc, unit, piece, values, place, &mut text)?;
    }
    Ok(text)
}

/// A string may have 65,535 bytes: `Length` beyond.
#[tactic(auto, using(crate::proofs::PrintLemmas::text_fits, crate::proofs::PrintLemmas::text_long))]
fn short_text(text: Text) -> Result<Text, Stopped>
    ensures { Answers text_of result (eval.text text) }
{
    if text.bytes().len() < 1 << 16 {
        Ok(text)
    } else {
        Err(Stopped::Fault(FaultKind::Length))
    }
}

/// The text of pieces with the values of expressions.
pub fn printed<V: Values>(
    alloc: Global,
    values: &V,
    pieces: &[Piece],
    exprs: &[Expr],
) -> Result<Text, Stopped>
    ensures { Answers text_of result (eval.with_result (values_of exprs.now (V.view values.now))
        (λ xs. eval.text (rendered (V.view values.now).unit pieces.now xs))) }
{
    let all = values_of(alloc, values, exprs)?;
    let text = rendered(alloc, values.unit(), pieces, all.as_slice())?;
    short_text(text)
}

/// A `$display` or the like.
#[tactic(auto, using(crate::proofs::PrintLemmas::prints, crate::proofs::PrintLemmas::printed_not))]
pub fn run_print<V: Values>(
    frames: &mut Frames,
    alloc: Global,
    design: &Design,
    values: &V,
    out: &mut Vec<Effect>,
    pieces: &[Piece],
    exprs: &[Expr],
) -> Result<(), Stopped>
    requires { out.old.items ≡ [] }
    ensures does { Does design.now result frames.new out.new.items (from_result (values_of exprs.now (V.view values.now)) (λ xs.
        from_result (eval.text (rendered (V.view values.now).unit pieces.now xs))
        (λ x. goes_on (drop 1 (todos_of design.now frames.old)) (Print_text (eval.text_in x) ∷ [])))) }
    ensures kept { IsKept result frames.old frames.new }
{
    let text = printed(alloc, values, pieces, exprs)?;
    frames.leave_first(design)?;
    pass_with(frames, design, out, Effect::Print(text))?;
    Ok(())
}

/// A `$strobe`, which prints as the slot ends.
#[tactic(auto, using(crate::proofs::PrintLemmas::strobed))]
pub fn run_strobe(
    frames: &mut Frames,
    design: &Design,
    out: &mut Vec<Effect>,
    at: Position,
    stmt: &Stmt,
    pieces: &[Piece],
    exprs: &[Expr],
) -> Result<(), NoMemory>
    requires first { out.old.items ≡ [] }
    requires at { stmt_at design.now at ≡ Some stmt.now }
    requires is { stmt.now.form ≡ form.Print print.Strobe pieces.now exprs.now }
    ensures { OnOk result (Leaves design.now frames.new out.new.items (goes_on (drop 1 (todos_of design.now frames.old))
        (Keep_print print.Strobe pieces.now exprs.now ∷ []))) }
{
    let _ = stmt;
    let _ = pieces;
    let _ = exprs;
    frames.leave_first(design)?;
    pass_with(frames, design, out, Effect::Strobe(at))?;
    Ok(())
}
