// Widths and signs of expressions (IEEE 1800-2017, 11.6 and 11.8).
ghost use Rattle.std.specs.Prelude.{◌≡◌, ◌*◌, false, max};
ghost use Rattle.sv_flat.specs.Contexts.{kept_width, own_context, wider, context_of_operation, operand_context, left_context, right_context};
ghost use Rattle.sv_flat.specs.Eval.{operands_of, is_in_context, plain_width, plain_sign, type_width, type_sign};
ghost use Rattle.sv_flat.specs.ExprView.{of_form};

use crate::{DataType, ExprForm};
use sv_value::{BinOp, Plain, UnOp};

/// How an operator with two operands takes them (IEEE 1800-2017, 11.6.1, Table 11-21).
#[derive(Clone, Copy, Debug, PartialEq, Eq)]
pub enum Operands {
    /// Both in the context of the whole.
    InContext,
    /// The left one in the context of the whole, the right one by itself: an amount.
    ByAmount,
    /// Both in the context of the wider one, to be compared.
    Compared,
    /// Each by itself, by its truth.
    ByTruth,
}

/// How many bits a value has, and whether it is signed: what an expression has by itself, or what stands around it.
#[derive(Clone, Copy, Debug, PartialEq, Eq)]
pub struct Context {
    /// How many bits; 0 where it is no vector.
    pub width: u32,
    /// Whether it is extended by its sign.
    pub signed: bool,
}

/// What is no vector.
const NO_VECTOR: Context = Context {
    width: 0,
    signed: false,
};

/// A single bit, without sign.
const ONE_BIT: Context = Context {
    width: 1,
    signed: false,
};

/// An `int`.
const INT: Context = Context {
    width: 32,
    signed: true,
};

impl Context {
    /// What a value of a type that is no container has.
    fn of_plain(ty: Plain) -> Context
        ensures { result ≡ record { width = plain_width ty; signed = plain_sign ty } }
    {
        match ty {
            Plain::Integral(ty) => Context {
                width: ty.width,
                signed: ty.signed,
            },
            _ => NO_VECTOR,
        }
    }

    /// What a value of a type has.
    fn of_type(ty: DataType) -> Context
        ensures { result ≡ record { width = type_width ty; signed = type_sign ty } }
    {
        match ty {
            DataType::Plain(ty) => Context::of_plain(ty),
            _ => NO_VECTOR,
        }
    }

    /// That of two operands that are compared or chosen from: the greater width, signed where both are.
    pub fn wider(self, other: Context) -> Context
        ensures { result ≡ wider self other }
    {
        Context {
            width: greater(self.width, other.width),
            signed: self.signed && other.signed,
        }
    }

    /// What an operation has by itself, from what its operands have.
    pub fn of_operation(operands: Operands, left: Context, right: Context) -> Context
        ensures { result ≡ context_of_operation operands left right }
    {
        match operands {
            Operands::InContext => left.wider(right),
            Operands::ByAmount => left,
            Operands::Compared | Operands::ByTruth => ONE_BIT,
        }
    }

    /// Where this stands around an operator: the context of its operand, which has `own` by itself.
    pub fn of_operand(self, is_in_context: bool, own: Context) -> Context
        ensures { result ≡ operand_context is_in_context self own }
    {
        if is_in_context { self } else { own }
    }

    /// Where this stands around an operator: the context of its left operand. Both operands have `left` and `right` by themselves.
    pub fn of_left(self, operands: Operands, left: Context, right: Context) -> Context
        ensures { result ≡ left_context operands self left right }
    {
        match operands {
            Operands::InContext | Operands::ByAmount => self,
            Operands::Compared => left.wider(right),
            Operands::ByTruth => left,
        }
    }

    /// Where this stands around an operator: the context of its right operand. Both operands have `left` and `right` by themselves.
    pub fn of_right(self, operands: Operands, left: Context, right: Context) -> Context
        ensures { result ≡ right_context operands self left right }
    {
        match operands {
            Operands::InContext => self,
            Operands::Compared => left.wider(right),
            Operands::ByAmount | Operands::ByTruth => right,
        }
    }

    /// What an expression of this form has by itself.
    #[tactic(auto, using(crate::proofs::Widths::operation_kept, crate::proofs::Widths::join_kept, crate::proofs::Widths::repeat_kept, crate::proofs::Widths::wider_kept))]
    pub fn of_form(form: &ExprForm) -> Context
        ensures { result ≡ own_context (of_form form.now) }
    {
        match form {
            ExprForm::Literal { value, .. } => Context {
                width: value.width(),
                signed: value.signed(),
            },
            ExprForm::Object { ty, .. } => Context::of_type(*ty),
            ExprForm::Local { ty, .. } => Context::of_type(*ty),
            ExprForm::Field { ty, .. } => Context::of_type(*ty),
            ExprForm::Element { ty, .. } => Context::of_plain(*ty),
            ExprForm::LocalElement { ty, .. } => Context::of_plain(*ty),
            ExprForm::FieldElement { ty, .. } => Context::of_plain(*ty),
            ExprForm::Item { ty, .. } => Context::of_plain(*ty),
            ExprForm::Static { member, .. } => member.own(),
            ExprForm::Select { width, .. } => unsigned(*width),
            ExprForm::Unary { op, operand } => {
                if is_in_context(*op) {
                    operand.own()
                } else {
                    ONE_BIT
                }
            }
            ExprForm::Binary { op, left, right } => {
                Context::of_operation(operands_of(*op), left.own(), right.own())
            }
            ExprForm::Choose { yes, no, .. } => yes.own().wider(no.own()),
            ExprForm::Join { high, low } => {
                unsigned(high.own().width.saturating_add(low.own().width))
            }
            ExprForm::Repeat { count, part } => replicated(*count, part.own()),
            ExprForm::Convert { to, .. } => Context::of_plain(Plain::Integral(*to)),
            ExprForm::Widen {
                width,
                signed,
                operand,
            } => Context {
                width: greater(*width, operand.own().width),
                signed: *signed,
            },
            ExprForm::Time { .. } => unsigned(64),
            ExprForm::Triggered { .. } => ONE_BIT,
            ExprForm::Size { .. }
            | ExprForm::Messages { .. }
            | ExprForm::Exists { .. }
            | ExprForm::Length { .. }
            | ExprForm::Log2 { .. } => INT,
            ExprForm::Text { .. }
            | ExprForm::Handle { .. }
            | ExprForm::Name { .. }
            | ExprForm::Printed { .. } => NO_VECTOR,
        }
    }
}

fn unsigned(width: u32) -> Context
    ensures { result ≡ record { width = width; signed = false } }
{
    Context {
        width,
        signed: false,
    }
}

/// So many times a part.
fn replicated(count: u32, part: Context) -> Context
    ensures { result ≡ record { width = kept_width (count * part.width); signed = false } }
{
    unsigned(count.saturating_mul(part.width))
}

/// The greater of two widths.
fn greater(a: u32, b: u32) -> u32
    ensures { result ≡ max a b }
{
    if a < b { b } else { a }
}

/// How each operator with two operands takes them.
pub fn operands_of(op: BinOp) -> Operands
    ensures { result ≡ operands_of op }
{
    match op {
        BinOp::Add | BinOp::Sub | BinOp::Mul | BinOp::Div | BinOp::Rem => Operands::InContext,
        BinOp::And | BinOp::Or | BinOp::Xor | BinOp::Xnor => Operands::InContext,
        BinOp::Power | BinOp::ShiftLeft | BinOp::ShiftRight | BinOp::ShiftRightSigned => {
            Operands::ByAmount
        }
        BinOp::LogicalAnd | BinOp::LogicalOr => Operands::ByTruth,
        _ => Operands::Compared,
    }
}

/// Whether an operator takes its operand in the context of the whole.
pub fn is_in_context(op: UnOp) -> bool
    ensures { result ≡ is_in_context op }
{
    matches!(op, UnOp::Plus | UnOp::Minus | UnOp::Invert)
}
