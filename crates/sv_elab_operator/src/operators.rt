// Operators on typed operands (IEEE 1800-2017, 11.4).
ghost use Rattle.std.specs.Prelude.{◌≡◌, map, is_some, IfOk, IfErr};
ghost use Rattle.sv_flat.specs.Expr as flat;
ghost use Rattle.sv_names.specs.declared.checked.Checked.{Checked as checked};
ghost use Rattle.sv_names.specs.declared.checked.Checked.TheVariants.{Good};
ghost use Rattle.sv_names.specs.declared.typed.Typed.{Typed as typed};
ghost use Rattle.sv_names.specs.Named.{Around as around};
ghost use Rattle.sv_names.specs.declared.refusal.Refusal.TheVariants.{Memory};
ghost use Rattle.sv_names.specs.Checked.{◌▷◌, given, both as both_of};
ghost use Rattle.sv_names.specs.Hoisted as hoisted;
ghost use Rattle.sv_names.specs.Values as values;
ghost use Rattle.sv_names.specs.Operators as operators;
ghost use Rattle.sv_names.specs.Types as types;
ghost use Rattle.sv_names.specs.Given.{Gives};

use std::alloc::Global;
use sv_elab_value::{
    bits_of, code_of, common_reference, expr_of, item, known_index, operand, paired, value_typed,
};
use sv_flat::{Context, Expr, ExprForm, is_in_context, operands_of};
use sv_names::{ClassInfo, Hoisted, Operands, Refusal, Ty, Typed, both, plain_vector};
use sv_tree::{BinaryWord, UnaryWord};
use sv_value::{BinOp, Place, UnOp};

// ---- one operand

/// The operator of a word.
fn unary_op(op: UnaryWord) -> UnOp
    ensures { result ≡ operators.unary_op op }
{
    match op {
        UnaryWord::Plus => UnOp::Plus,
        UnaryWord::Minus => UnOp::Minus,
        UnaryWord::Not => UnOp::Not,
        UnaryWord::Invert => UnOp::Invert,
        UnaryWord::And => UnOp::ReduceAnd,
        UnaryWord::Nand => UnOp::ReduceNand,
        UnaryWord::Or => UnOp::ReduceOr,
        UnaryWord::Nor => UnOp::ReduceNor,
        UnaryWord::Xor => UnOp::ReduceXor,
        UnaryWord::Xnor => UnOp::ReduceXnor,
    }
}

/// The type of an operator on one operand.
fn unary_type(op: UnOp, ty: &Ty) -> Ty
    ensures { result ≡ operators.unary_type op ty.now }
{
    if is_in_context(op) {
        plain_vector(ty.width(), ty.is_signed(), ty.is_four_state())
    } else {
        plain_vector(1, false, true)
    }
}

/// The code of an operator on one operand.
fn unary_code(alloc: Global, op: UnOp, a: Hoisted<Expr>) -> Result<Hoisted<Expr>, Refusal>
    ensures ok { IfOk result (λ c. c ≡ hoisted.mapped (flat.Unary op) a) }
    ensures err { IfErr result (λ e. e ≡ Memory) }
{
    let value = expr_of(
        alloc,
        ExprForm::Unary {
            op,
            operand: a.value,
        },
    )?;
    Ok(Hoisted {
        hidden: a.hidden,
        calls: a.calls,
        value,
    })
}

/// An operator on one number.
fn unary_typed(alloc: Global, at: Place, op: UnaryWord, a: Typed) -> Result<Typed, Refusal>
    ensures { Gives result (Good (operators.unary_typed at op a)) }
{
    let op = unary_op(op);
    let ty = unary_type(op, &a.ty);
    let is_constant = a.is_constant;
    let code = unary_code(alloc, op, code_of(a))?;
    Ok(value_typed(alloc, ty, at, is_constant, code))
}

/// An operator on one operand.
pub fn unary(
    alloc: Global,
    at: Place,
    op: UnaryWord,
    place: Place,
    a: Result<Typed, Refusal>,
) -> Result<Typed, Refusal>
    ensures { (x : checked typed) → Gives a x
        → Gives result (given (operators.unary_typed at op) (x ▷ values.number_operand place)) }
{
    match operand(place, a) {
        Ok(t) => unary_typed(alloc, at, op, t),
        Err(e) => Err(e),
    }
}

// ---- two operands

/// How an operator takes its operands.
pub fn kind_of(op: BinaryWord) -> Operands
    ensures { result ≡ operators.kind_of op }
{
    match op {
        BinaryWord::Power => Operands::Power,
        BinaryWord::Multiply => Operands::Numbers(BinOp::Mul),
        BinaryWord::Divide => Operands::Numbers(BinOp::Div),
        BinaryWord::Remainder => Operands::Numbers(BinOp::Rem),
        BinaryWord::Plus => Operands::Numbers(BinOp::Add),
        BinaryWord::Minus => Operands::Numbers(BinOp::Sub),
        BinaryWord::ShiftLeft => Operands::Numbers(BinOp::ShiftLeft),
        BinaryWord::ShiftRight => Operands::Numbers(BinOp::ShiftRight),
        BinaryWord::ShiftLeftSigned => Operands::Numbers(BinOp::ShiftLeft),
        BinaryWord::ShiftRightSigned => Operands::Numbers(BinOp::ShiftRightSigned),
        BinaryWord::Less => Operands::Comparison(BinOp::Less),
        BinaryWord::LessEqual => Operands::Comparison(BinOp::LessEqual),
        BinaryWord::Greater => Operands::Comparison(BinOp::Greater),
        BinaryWord::GreaterEqual => Operands::Comparison(BinOp::GreaterEqual),
        BinaryWord::Equal => Operands::Comparison(BinOp::Equal),
        BinaryWord::NotEqual => Operands::Comparison(BinOp::NotEqual),
        BinaryWord::CaseEqual => Operands::Comparison(BinOp::CaseEqual),
        BinaryWord::CaseNotEqual => Operands::Comparison(BinOp::CaseNotEqual),
        BinaryWord::And => Operands::Numbers(BinOp::And),
        BinaryWord::Xor => Operands::Numbers(BinOp::Xor),
        BinaryWord::Xnor => Operands::Numbers(BinOp::Xnor),
        BinaryWord::Or => Operands::Numbers(BinOp::Or),
        BinaryWord::LogicalAnd => Operands::Numbers(BinOp::LogicalAnd),
        BinaryWord::LogicalOr => Operands::Numbers(BinOp::LogicalOr),
    }
}

/// The width and the sign of a type (IEEE 1800-2017, 6.9 and 6.11); width 0 where it is no number.
pub fn context_of(ty: &Ty) -> Context
    ensures { result ≡ record { width = types.width_of_type ty.now; signed = types.sign_of_type ty.now } }
{
    Context {
        width: ty.width(),
        signed: ty.is_signed(),
    }
}

/// The type of an operator on two operands.
fn binary_type(op: BinOp, a: &Ty, b: &Ty) -> Ty
    ensures { result ≡ operators.binary_type op a.now b.now }
{
    let whole = Context::of_operation(operands_of(op), context_of(a), context_of(b));
    plain_vector(
        whole.width,
        whole.signed,
        a.is_four_state() || b.is_four_state(),
    )
}

/// The expression of an operator on two operands.
fn binary_expr(alloc: Global, op: BinOp, left: Expr, right: Expr) -> Result<Expr, Refusal>
    ensures ok { IfOk result (λ e. e ≡ flat.Binary op left right) }
    ensures err { IfErr result (λ e. e ≡ Memory) }
{
    expr_of(alloc, ExprForm::Binary { op, left, right })
}

/// The code of an operator between two operands.
fn binary_code(
    alloc: Global,
    op: BinOp,
    a: Hoisted<Expr>,
    b: Hoisted<Expr>,
) -> Result<Hoisted<Expr>, Refusal>
    ensures ok { IfOk result (λ c. c ≡ hoisted.paired (flat.Binary op) a b) }
    ensures err { IfErr result (λ e. e ≡ Memory) }
{
    let both = paired(a, b)?;
    let (left, right) = both.value;
    let value = binary_expr(alloc, op, left, right)?;
    Ok(Hoisted {
        hidden: both.hidden,
        calls: both.calls,
        value,
    })
}

/// An operator between two operands.
pub fn binary_typed(
    alloc: Global,
    op: BinOp,
    at: Place,
    a: Typed,
    b: Typed,
) -> Result<Typed, Refusal>
    ensures { Gives result (Good (operators.binary_typed op at a b)) }
{
    let ty = binary_type(op, &a.ty, &b.ty);
    let is_constant = a.is_constant && b.is_constant;
    let code = binary_code(alloc, op, code_of(a), code_of(b))?;
    Ok(value_typed(alloc, ty, at, is_constant, code))
}

/// An operator between two numbers.
pub fn numbers(
    alloc: Global,
    op: BinOp,
    left: Place,
    right: Place,
    a: Result<Typed, Refusal>,
    b: Result<Typed, Refusal>,
) -> Result<Typed, Refusal>
    ensures { (x y : checked typed) → Gives a x → Gives b y
        → Gives result (given (λ p. operators.binary_typed op left p.0 p.1)
        (both_of (x ▷ values.number_operand left) (y ▷ values.number_operand right))) }
{
    match both(operand(left, a), operand(right, b)) {
        Ok((a, b)) => binary_typed(alloc, op, left, a, b),
        Err(e) => Err(e),
    }
}

// ---- comparisons and powers

/// `==` and its kin.
fn is_equality(op: BinOp) -> bool
    ensures { result ≡ operators.is_equality op }
{
    match op {
        BinOp::Equal => true,
        BinOp::NotEqual => true,
        BinOp::CaseEqual => true,
        BinOp::CaseNotEqual => true,
        _ => false,
    }
}

/// Whether two references have a common type (8.16).
fn are_related(alloc: Global, classes: &[&ClassInfo], a: &Ty, b: &Ty) -> Result<bool, Refusal>
    ensures ok { IfOk result (λ t. t ≡ is_some (values.common_reference (map (λ k. k.now) classes.now) a.now b.now)) }
    ensures err { IfErr result (λ e. e ≡ Memory) }
{
    let common = common_reference(alloc, classes, a, b)?;
    Ok(common.is_some())
}

/// Whether an operator compares two types.
#[tactic(auto, using(crate::proofs::References::comparable_is))]
fn are_comparable(
    alloc: Global,
    classes: &[&ClassInfo],
    op: BinOp,
    a: &Ty,
    b: &Ty,
) -> Result<bool, Refusal>
    ensures ok { IfOk result (λ t. t ≡ operators.are_comparable (map (λ k. k.now) classes.now) op a.now b.now) }
    ensures err { IfErr result (λ e. e ≡ Memory) }
{
    if a.is_integral() && b.is_integral() {
        return Ok(true);
    }
    if a.is_text() && b.is_text() {
        return Ok(true);
    }
    if is_equality(op) && a.is_reference() && b.is_reference() {
        return are_related(alloc, classes, a, b);
    }
    Ok(false)
}

/// E15: an operator compares two types.
fn comparison_stands(
    alloc: Global,
    classes: &[&ClassInfo],
    op: BinOp,
    left: Place,
    right: Place,
    a: &Ty,
    b: &Ty,
) -> Result<(), Refusal>
    ensures { Gives result (operators.comparison_stands (map (λ k. k.now) classes.now) op left right a.now b.now) }
{
    if are_comparable(alloc, classes, op, a, b)? {
        return Ok(());
    }
    if a.is_integral() || a.is_text() || is_equality(op) && a.is_reference() {
        Err(Refusal::Rule {
            rule: 15,
            at: right,
        })
    } else {
        Err(Refusal::Rule { rule: 15, at: left })
    }
}

/// A comparison of two items.
#[tactic(auto, using(crate::proofs::References::compared_by))]
fn comparable(
    alloc: Global,
    classes: &[&ClassInfo],
    op: BinOp,
    left: Place,
    right: Place,
    a: Typed,
    b: Typed,
) -> Result<Typed, Refusal>
    ensures { (ar : around) → ar.classes ≡ map (λ k. k.now) classes.now
        → Gives result (operators.comparable ar op left right a b) }
{
    match comparison_stands(alloc, classes, op, left, right, &a.ty, &b.ty) {
        Ok(()) => binary_typed(alloc, op, left, a, b),
        Err(e) => Err(e),
    }
}

/// E15, E42: an operator that compares two operands; references by the classes that can be named.
pub fn comparison(
    alloc: Global,
    classes: &[&ClassInfo],
    op: BinOp,
    left: Place,
    right: Place,
    a: Result<Typed, Refusal>,
    b: Result<Typed, Refusal>,
) -> Result<Typed, Refusal>
    ensures { (ar : around) (x y : checked typed) → ar.classes ≡ map (λ k. k.now) classes.now → Gives a x → Gives b y
        → Gives result
        (both_of (x ▷ values.one_item) (y ▷ values.one_item) ▷ (λ p. operators.comparable ar op left right p.0 p.1)) }
{
    match both(item(a), item(b)) {
        Ok((a, b)) => comparable(alloc, classes, op, left, right, a, b),
        Err(e) => Err(e),
    }
}

/// Whether a number is below 0.
fn is_negative(number: Option<i128>) -> bool
    ensures { result ≡ operators.is_negative number }
{
    match number {
        Some(n) => n < 0,
        None => false,
    }
}

/// E53: a power stands between constants, and its exponent is not negative.
fn power_stands(at: Place, a: &Typed, b: &Typed) -> Result<(), Refusal>
    ensures { Gives result (operators.power_stands at a.now b.now) }
{
    if !a.is_constant || !b.is_constant {
        return Err(Refusal::Rule { rule: 53, at });
    }
    let exponent = bits_of(&b.code.value)?;
    if is_negative(known_index(exponent)) {
        Err(Refusal::Rule { rule: 53, at })
    } else {
        Ok(())
    }
}

/// A power of constants.
#[tactic(auto, using(crate::proofs::Judged::fails_then))]
fn power_typed(
    alloc: Global,
    operator: Place,
    at: Place,
    a: Typed,
    b: Typed,
) -> Result<Typed, Refusal>
    ensures { Gives result (operators.power_typed operator at a b) }
{
    match power_stands(operator, &a, &b) {
        Ok(()) => binary_typed(alloc, BinOp::Power, at, a, b),
        Err(e) => Err(e),
    }
}

/// `**`
pub fn power(
    alloc: Global,
    operator: Place,
    left: Place,
    right: Place,
    a: Result<Typed, Refusal>,
    b: Result<Typed, Refusal>,
) -> Result<Typed, Refusal>
    ensures { (x y : checked typed) → Gives a x → Gives b y → Gives result (both_of (x ▷ values.number_operand left)
        (y ▷ values.number_operand right) ▷ (λ p. operators.power_typed operator left p.0 p.1)) }
{
    match both(operand(left, a), operand(right, b)) {
        Ok((a, b)) => power_typed(alloc, operator, left, a, b),
        Err(e) => Err(e),
    }
}

/// E15, E42, E53: an operator with its operands; references are compared by the classes that can be named.
pub fn binary(
    alloc: Global,
    classes: &[&ClassInfo],
    op: BinaryWord,
    operator: Place,
    left: Place,
    right: Place,
    a: Result<Typed, Refusal>,
    b: Result<Typed, Refusal>,
) -> Result<Typed, Refusal>
    ensures { (ar : around) (x y : checked typed) → ar.classes ≡ map (λ k. k.now) classes.now → Gives a x → Gives b y
        → Gives result (operators.binary_of ar (operators.kind_of op) operator left right x y) }
{
    match kind_of(op) {
        Operands::Numbers(op) => numbers(alloc, op, left, right, a, b),
        Operands::Comparison(op) => comparison(alloc, classes, op, left, right, a, b),
        Operands::Power => power(alloc, operator, left, right, a, b),
    }
}
