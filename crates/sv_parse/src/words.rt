// The classes of words, each with its table in the grammar.
ghost use Rattle.std.specs.Prelude.{◌≡◌, refl};
ghost use Rattle.sv_tree.specs.ExprGrammar.{unary_words, part_words, vector_words, atom_words};
ghost use Rattle.sv_tree.specs.TypeGrammar.{sign_words, life_words};
ghost use Rattle.sv_tree.specs.StmtGrammar.{edge_words, assign_words, step_words, case_words, join_words};
ghost use Rattle.sv_tree.specs.UnitGrammar.{param_words, port_directions, argument_directions, procedure_words};
ghost use Rattle.sv_tree.specs.declared.word.UnaryWord.TheVariants as unary_word;
ghost use Rattle.sv_tree.specs.declared.word.PartWord.TheVariants as part_word;
ghost use Rattle.sv_tree.specs.declared.word.VectorWord.TheVariants as vector_word;
ghost use Rattle.sv_tree.specs.declared.word.AtomWord.TheVariants as atom_word;
ghost use Rattle.sv_tree.specs.declared.word.Sign.TheVariants as sign_word;
ghost use Rattle.sv_tree.specs.declared.word.Life.TheVariants as life_word;
ghost use Rattle.sv_tree.specs.declared.word.EdgeWord.TheVariants as edge_word;
ghost use Rattle.sv_tree.specs.declared.word.BinaryWord.TheVariants as binary_word;
ghost use Rattle.sv_tree.specs.declared.word.StepWord.TheVariants as step_word;
ghost use Rattle.sv_tree.specs.declared.word.CaseWord.TheVariants as case_word;
ghost use Rattle.sv_tree.specs.declared.word.JoinWord.TheVariants as join_word;
ghost use Rattle.sv_tree.specs.declared.word.ParamWord.TheVariants as param_word;
ghost use Rattle.sv_tree.specs.declared.word.PortDirection.TheVariants as port_direction;
ghost use Rattle.sv_tree.specs.declared.word.Direction.TheVariants as direction;
ghost use Rattle.sv_tree.specs.declared.word.ProcedureWord.TheVariants as procedure;

use crate::word::Word;
use sv_tree::{
    AtomWord, BinaryWord, CaseWord, Direction, EdgeWord, JoinWord, Kind, Life, ParamWord, PartWord,
    PortDirection, ProcedureWord, Sign, StepWord, UnaryWord, VectorWord,
};

impl Word for UnaryWord {
    ghost table = { unary_words };

    ghost otherwise = { unary_word.Xnor };

    ghost no_end = { refl };

    fn of(kind: Kind) -> Option<UnaryWord> {
        match kind {
            Kind::Plus => Some(UnaryWord::Plus),
            Kind::Minus => Some(UnaryWord::Minus),
            Kind::Not => Some(UnaryWord::Not),
            Kind::Tilde => Some(UnaryWord::Invert),
            Kind::Ampersand => Some(UnaryWord::And),
            Kind::TildeAmpersand => Some(UnaryWord::Nand),
            Kind::Bar => Some(UnaryWord::Or),
            Kind::TildeBar => Some(UnaryWord::Nor),
            Kind::Caret => Some(UnaryWord::Xor),
            Kind::TildeCaret | Kind::CaretTilde => Some(UnaryWord::Xnor),
            _ => None,
        }
    }
}

impl Word for PartWord {
    ghost table = { part_words };

    ghost otherwise = { part_word.Down };

    ghost no_end = { refl };

    fn of(kind: Kind) -> Option<PartWord> {
        match kind {
            Kind::Colon => Some(PartWord::Fixed),
            Kind::PlusColon => Some(PartWord::Up),
            Kind::MinusColon => Some(PartWord::Down),
            _ => None,
        }
    }
}

impl Word for VectorWord {
    ghost table = { vector_words };

    ghost otherwise = { vector_word.Reg };

    ghost no_end = { refl };

    fn of(kind: Kind) -> Option<VectorWord> {
        match kind {
            Kind::Bit => Some(VectorWord::Bit),
            Kind::Logic => Some(VectorWord::Logic),
            Kind::Reg => Some(VectorWord::Reg),
            _ => None,
        }
    }
}

impl Word for AtomWord {
    ghost table = { atom_words };

    ghost otherwise = { atom_word.Time };

    ghost no_end = { refl };

    fn of(kind: Kind) -> Option<AtomWord> {
        match kind {
            Kind::Byte => Some(AtomWord::Byte),
            Kind::Shortint => Some(AtomWord::Shortint),
            Kind::Int => Some(AtomWord::Int),
            Kind::Longint => Some(AtomWord::Longint),
            Kind::Integer => Some(AtomWord::Integer),
            Kind::Time => Some(AtomWord::Time),
            _ => None,
        }
    }
}

impl Word for Sign {
    ghost table = { sign_words };

    ghost otherwise = { sign_word.Unsigned };

    ghost no_end = { refl };

    fn of(kind: Kind) -> Option<Sign> {
        match kind {
            Kind::Signed => Some(Sign::Signed),
            Kind::Unsigned => Some(Sign::Unsigned),
            _ => None,
        }
    }
}

impl Word for Life {
    ghost table = { life_words };

    ghost otherwise = { life_word.Static };

    ghost no_end = { refl };

    fn of(kind: Kind) -> Option<Life> {
        match kind {
            Kind::Automatic => Some(Life::Automatic),
            Kind::Static => Some(Life::Static),
            _ => None,
        }
    }
}

impl Word for EdgeWord {
    ghost table = { edge_words };

    ghost otherwise = { edge_word.Negedge };

    ghost no_end = { refl };

    fn of(kind: Kind) -> Option<EdgeWord> {
        match kind {
            Kind::Posedge => Some(EdgeWord::Posedge),
            Kind::Negedge => Some(EdgeWord::Negedge),
            _ => None,
        }
    }
}

/// The operator of an assignment: `+=` and the like.
impl Word for BinaryWord {
    ghost table = { assign_words };

    ghost otherwise = { binary_word.ShiftRightSigned };

    ghost no_end = { refl };

    fn of(kind: Kind) -> Option<BinaryWord> {
        match kind {
            Kind::PlusEquals => Some(BinaryWord::Plus),
            Kind::MinusEquals => Some(BinaryWord::Minus),
            Kind::StarEquals => Some(BinaryWord::Multiply),
            Kind::SlashEquals => Some(BinaryWord::Divide),
            Kind::PercentEquals => Some(BinaryWord::Remainder),
            Kind::AmpersandEquals => Some(BinaryWord::And),
            Kind::BarEquals => Some(BinaryWord::Or),
            Kind::CaretEquals => Some(BinaryWord::Xor),
            Kind::ShiftLeftEquals => Some(BinaryWord::ShiftLeft),
            Kind::ShiftRightEquals => Some(BinaryWord::ShiftRight),
            Kind::ShiftLeftSignedEquals => Some(BinaryWord::ShiftLeftSigned),
            Kind::ShiftRightSignedEquals => Some(BinaryWord::ShiftRightSigned),
            _ => None,
        }
    }
}

impl Word for StepWord {
    ghost table = { step_words };

    ghost otherwise = { step_word.Decrement };

    ghost no_end = { refl };

    fn of(kind: Kind) -> Option<StepWord> {
        match kind {
            Kind::PlusPlus => Some(StepWord::Increment),
            Kind::MinusMinus => Some(StepWord::Decrement),
            _ => None,
        }
    }
}

impl Word for CaseWord {
    ghost table = { case_words };

    ghost otherwise = { case_word.X };

    ghost no_end = { refl };

    fn of(kind: Kind) -> Option<CaseWord> {
        match kind {
            Kind::Case => Some(CaseWord::Exact),
            Kind::Casez => Some(CaseWord::Z),
            Kind::Casex => Some(CaseWord::X),
            _ => None,
        }
    }
}

impl Word for JoinWord {
    ghost table = { join_words };

    ghost otherwise = { join_word.None };

    ghost no_end = { refl };

    fn of(kind: Kind) -> Option<JoinWord> {
        match kind {
            Kind::Join => Some(JoinWord::All),
            Kind::JoinAny => Some(JoinWord::Any),
            Kind::JoinNone => Some(JoinWord::None),
            _ => None,
        }
    }
}

impl Word for ParamWord {
    ghost table = { param_words };

    ghost otherwise = { param_word.Localparam };

    ghost no_end = { refl };

    fn of(kind: Kind) -> Option<ParamWord> {
        match kind {
            Kind::Parameter => Some(ParamWord::Parameter),
            Kind::Localparam => Some(ParamWord::Localparam),
            _ => None,
        }
    }
}

impl Word for PortDirection {
    ghost table = { port_directions };

    ghost otherwise = { port_direction.Output };

    ghost no_end = { refl };

    fn of(kind: Kind) -> Option<PortDirection> {
        match kind {
            Kind::Input => Some(PortDirection::Input),
            Kind::Output => Some(PortDirection::Output),
            _ => None,
        }
    }
}

impl Word for Direction {
    ghost table = { argument_directions };

    ghost otherwise = { direction.Inout };

    ghost no_end = { refl };

    fn of(kind: Kind) -> Option<Direction> {
        match kind {
            Kind::Input => Some(Direction::Input),
            Kind::Output => Some(Direction::Output),
            Kind::Inout => Some(Direction::Inout),
            _ => None,
        }
    }
}

/// The procedures that stand in modules alone.
impl Word for ProcedureWord {
    ghost table = { procedure_words };

    ghost otherwise = { procedure.AlwaysFf };

    ghost no_end = { refl };

    fn of(kind: Kind) -> Option<ProcedureWord> {
        match kind {
            Kind::Always => Some(ProcedureWord::Always),
            Kind::AlwaysComb => Some(ProcedureWord::AlwaysComb),
            Kind::AlwaysFf => Some(ProcedureWord::AlwaysFf),
            _ => None,
        }
    }
}
