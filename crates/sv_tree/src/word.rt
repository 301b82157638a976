// Names, and the words that choose among alternatives.
use sv_value::{Excerpt, Place};

/// `id`: a name (IEEE 1800-2017, 5.6), at its first byte.
#[derive(Drop)]
pub struct Name {
    pub at: Place,
    pub text: Excerpt,
}

/// Operators before an operand (11.3): `+ - ! ~ & ~& | ~| ^` and `~^` or `^~`.
#[derive(Clone, Copy, Debug, PartialEq, Eq)]
pub enum UnaryWord {
    Plus,
    Minus,
    Not,
    Invert,
    And,
    Nand,
    Or,
    Nor,
    Xor,
    Xnor,
}

/// Operators between two operands (11.3), the strongest first: `**`, `* / %`, `+ -`, `<< >> <<< >>>`, `< <= > >=`, `== != === !==`,
/// `&`, `^` and `~^` or `^~`, `|`, `&&`, `||`.
#[derive(Clone, Copy, Debug, PartialEq, Eq)]
pub enum BinaryWord {
    Power,
    Multiply,
    Divide,
    Remainder,
    Plus,
    Minus,
    ShiftLeft,
    ShiftRight,
    ShiftLeftSigned,
    ShiftRightSigned,
    Less,
    LessEqual,
    Greater,
    GreaterEqual,
    Equal,
    NotEqual,
    CaseEqual,
    CaseNotEqual,
    And,
    Xor,
    Xnor,
    Or,
    LogicalAnd,
    LogicalOr,
}

/// How strongly the operators between two operands bind (Table 11-2), the strongest first.
#[derive(Clone, Copy, Debug, PartialEq, Eq)]
pub enum Precedence {
    /// `**`
    Power,
    /// `* / %`
    Multiplicative,
    /// `+ -`
    Additive,
    /// `<< >> <<< >>>`
    Shift,
    /// `< <= > >=`
    Relational,
    /// `== != === !==`
    Equality,
    /// `&`
    And,
    /// `^ ~^ ^~`
    Xor,
    /// `|`
    Or,
    /// `&&`
    LogicalAnd,
    /// `||`
    LogicalOr,
}

/// `++` or `--` (11.4.2)
#[derive(Clone, Copy, Debug, PartialEq, Eq)]
pub enum StepWord {
    Increment,
    Decrement,
}

/// What stands between the two expressions of a part select (11.5.1): `:`, `+:` or `-:`
#[derive(Clone, Copy, Debug, PartialEq, Eq)]
pub enum PartWord {
    Fixed,
    Up,
    Down,
}

/// The types of bits that may have a range (6.11): `bit`, `logic`, `reg`
#[derive(Clone, Copy, Debug, PartialEq, Eq)]
pub enum VectorWord {
    Bit,
    Logic,
    Reg,
}

/// The integer types with a width of their own (6.11): `byte`, `shortint`, `int`, `longint`, `integer`, `time`
#[derive(Clone, Copy, Debug, PartialEq, Eq)]
pub enum AtomWord {
    Byte,
    Shortint,
    Int,
    Longint,
    Integer,
    Time,
}

/// `[sign]`, where `sign = "signed" | "unsigned"` (A.2.2.1)
#[derive(Clone, Copy, Debug, PartialEq, Eq)]
pub enum Sign {
    Signed,
    Unsigned,
    Unwritten,
}

/// `[life]`, where `life = "automatic" | "static"` (A.2.1.3)
#[derive(Clone, Copy, Debug, PartialEq, Eq)]
pub enum Life {
    Automatic,
    Static,
    Unwritten,
}

/// `"parameter" | "localparam"` (A.2.1.1)
#[derive(Clone, Copy, Debug, PartialEq, Eq)]
pub enum ParamWord {
    Parameter,
    Localparam,
}

/// The direction of a port: `input`, `output` (A.2.1.2)
#[derive(Clone, Copy, Debug, PartialEq, Eq)]
pub enum PortDirection {
    Input,
    Output,
}

/// The direction of an argument or a clocking signal: `input`, `output`, `inout` (A.2.1.2)
#[derive(Clone, Copy, Debug, PartialEq, Eq)]
pub enum Direction {
    Input,
    Output,
    Inout,
}

/// `case`, `casez`, `casex` (12.5)
#[derive(Clone, Copy, Debug, PartialEq, Eq)]
pub enum CaseWord {
    Exact,
    Z,
    X,
}

/// How a fork ends (9.3.2): `join`, `join_any`, `join_none`
#[derive(Clone, Copy, Debug, PartialEq, Eq)]
pub enum JoinWord {
    All,
    Any,
    None,
}

/// `["posedge" | "negedge"]` (9.4.2)
#[derive(Clone, Copy, Debug, PartialEq, Eq)]
pub enum EdgeWord {
    Posedge,
    Negedge,
    Unwritten,
}

/// The word of a structured procedure (9.2): `initial`, `always`, `always_comb`, `always_ff`
#[derive(Clone, Copy, Debug, PartialEq, Eq)]
pub enum ProcedureWord {
    Initial,
    Always,
    AlwaysComb,
    AlwaysFf,
}
