// Statements and declarations (IEEE 1800-2017, A.2.4 to A.2.8 and A.6).
use crate::{
    Actuals, BinaryWord, CaseWord, EdgeWord, Expr, JoinWord, Life, Lval, Name, Range, StepWord,
    WrittenType,
};
use sv_value::Place;

// ---- declarations

/// `dim = "[" [expr | expr ":" expr | "$" | type] "]"`, at `[` (A.2.5).
pub enum Dimension {
    /// `"[" "]"`
    Empty(Place),
    /// `"[" expr "]"`
    Size(Place, Expr),
    /// `"[" expr ":" expr "]"`
    Bounds(Range),
    /// `"[" "$" "]"`
    Queue(Place),
    /// `"[" type "]"`, of a type that is no name
    Key(Place, WrittenType),
    /// `"[" id "]"`: a name alone, of a type or of a constant
    Named(Place, Name),
}

impl Drop for Dimension {
    fn drop(self) {
        match self {
            Dimension::Empty(_) => {}
            Dimension::Size(_, _) => {}
            Dimension::Bounds(_) => {}
            Dimension::Queue(_) => {}
            Dimension::Key(_, _) => {}
            Dimension::Named(_, _) => {}
        }
    }
}

/// `init`: the value of a declaration or of an assignment (A.2.4); `new` is at its word.
pub enum Init {
    /// `expr`
    Value(Expr),
    /// `"new" ["(" [list(expr)] ")"]`
    New(Place, Actuals),
    /// `"new" id`
    Copy(Place, Name),
    /// `"new" "[" expr "]" ["(" expr ")"]`
    Array {
        at: Place,
        size: Expr,
        source: Option<Expr>,
    },
}

impl Drop for Init {
    fn drop(self) {
        match self {
            Init::Value(_) => {}
            Init::New(_, _) => {}
            Init::Copy(_, _) => {}
            Init::Array {
                at: _,
                size: _,
                source: _,
            } => {}
        }
    }
}

/// `id [dim] ["=" init]`
pub struct Declarator {
    pub name: Name,
    pub dimension: Option<Dimension>,
    pub init: Option<Init>,
}

impl Drop for Declarator {
    fn drop(self) {
        let Declarator {
            name: _,
            dimension: _,
            init: _,
        } = self;
    }
}

/// `decl = [life] ["var"] type list(id [dim] ["=" init]) ";"` (A.2.1.3)
pub struct Decl {
    pub life: Life,
    pub of: WrittenType,
    pub names: Vec<Declarator>,
}

impl Drop for Decl {
    fn drop(self) {
        let Decl {
            life: _,
            of: _,
            names: _,
        } = self;
    }
}

// ---- parts of statements

/// `delay = "#" (number | time | id | "(" expr ")")`, at `#` (A.2.2.3)
pub struct Delay {
    pub at: Place,
    pub amount: Expr,
}

impl Drop for Delay {
    fn drop(self) {
        let Delay { at: _, amount: _ } = self;
    }
}

/// `ev = ["posedge" | "negedge"] expr ["iff" expr]` (A.6.5)
pub struct EventPart {
    pub edge: EdgeWord,
    pub expr: Expr,
    pub condition: Option<Expr>,
}

impl Drop for EventPart {
    fn drop(self) {
        let EventPart {
            edge: _,
            expr: _,
            condition: _,
        } = self;
    }
}

/// `event`: what an event control waits for (A.6.5)
pub enum Event {
    /// `id`
    Named(Name),
    /// `"*" | "(" "*" ")"`
    Star,
    /// `"(" ev {("or" | ",") ev} ")"`
    Parts(Vec<EventPart>),
}

impl Drop for Event {
    fn drop(self) {
        match self {
            Event::Named(_) => {}
            Event::Star => {}
            Event::Parts(_) => {}
        }
    }
}

/// A blocking assignment: `lval "=" [delay] init` (A.6.2)
pub struct BlockingAssignment {
    pub target: Lval,
    pub delay: Option<Delay>,
    pub value: Init,
}

impl Drop for BlockingAssignment {
    fn drop(self) {
        let BlockingAssignment {
            target: _,
            delay: _,
            value: _,
        } = self;
    }
}

/// A nonblocking assignment: `lval "<=" [delay] expr` (A.6.2)
pub struct NonblockingAssignment {
    pub target: Lval,
    pub delay: Option<Delay>,
    pub value: Expr,
}

impl Drop for NonblockingAssignment {
    fn drop(self) {
        let NonblockingAssignment {
            target: _,
            delay: _,
            value: _,
        } = self;
    }
}

/// An assignment with an operator: `lval aop expr` (A.6.2)
pub struct OperatorAssignment {
    pub target: Lval,
    pub word: BinaryWord,
    pub value: Expr,
}

impl Drop for OperatorAssignment {
    fn drop(self) {
        let OperatorAssignment {
            target: _,
            word: _,
            value: _,
        } = self;
    }
}

/// The first part of a `for`: `type id "=" expr | lval "=" expr` (A.6.8)
pub enum ForInit {
    /// `type id "=" expr`
    Declare {
        of: WrittenType,
        name: Name,
        value: Expr,
    },
    /// `lval "=" expr`
    Assign(Lval, Expr),
}

impl Drop for ForInit {
    fn drop(self) {
        match self {
            ForInit::Declare {
                of: _,
                name: _,
                value: _,
            } => {}
            ForInit::Assign(_, _) => {}
        }
    }
}

/// The last part of a `for`: `step` (A.6.8)
pub enum ForStep {
    /// `lval "=" expr`
    Assign(Lval, Expr),
    /// `lval aop expr`
    Operator(OperatorAssignment),
    /// `lval ("++" | "--") | ("++" | "--") lval`
    Step {
        /// The place of the first token.
        at: Place,
        target: Lval,
        word: StepWord,
    },
}

impl Drop for ForStep {
    fn drop(self) {
        match self {
            ForStep::Assign(_, _) => {}
            ForStep::Operator(_) => {}
            ForStep::Step {
                at: _,
                target: _,
                word: _,
            } => {}
        }
    }
}

// ---- statements

/// `stmt = [id ":"] body` (A.6.4), at the first token of its body; the label has its own place
#[cycle(stmt)]
pub struct Stmt {
    pub at: Place,
    pub label: Option<Name>,
    pub body: Body,
}

impl Drop for Stmt {
    #[cycle(drop_stmt)]
    fn drop(self) {
        let Stmt {
            at: _,
            label: _,
            body: _,
        } = self;
    }
}

/// An item of a `case` (A.6.7)
#[cycle(stmt)]
pub enum CaseItem {
    /// `list(expr) ":" stmt`
    Labels(Vec<Expr>, Box<Stmt>),
    /// `"default" [":"] stmt`
    Default(Box<Stmt>),
}

impl Drop for CaseItem {
    #[cycle(drop_stmt)]
    fn drop(self) {
        match self {
            CaseItem::Labels(_, _) => {}
            CaseItem::Default(_) => {}
        }
    }
}

/// `body`: a statement without its label (A.6.2 to A.6.8)
#[cycle(stmt)]
pub enum Body {
    /// `";"`
    Null,
    /// `"begin" [":" id] {decl} {stmt} "end" [":" id]`
    Block {
        name: Option<Name>,
        decls: Vec<Decl>,
        stmts: Vec<Stmt>,
        /// The name after `end`.
        label: Option<Name>,
    },
    /// `"fork" [":" id] {decl} {stmt} ("join" | "join_any" | "join_none") [":" id]`
    Fork {
        name: Option<Name>,
        decls: Vec<Decl>,
        stmts: Vec<Stmt>,
        join: JoinWord,
        /// The name after the last word.
        label: Option<Name>,
    },
    /// `lval "=" [delay] init ";"`
    Blocking(Box<BlockingAssignment>),
    /// `lval "<=" [delay] expr ";"`
    Nonblocking(Box<NonblockingAssignment>),
    /// `lval aop expr ";"`
    Operator(Box<OperatorAssignment>),
    /// `lval ("++" | "--") ";" | ("++" | "--") lval ";"`
    Step(Lval, StepWord),
    /// `call ";"`
    Call(Expr),
    /// `"void" "'" "(" call ")" ";"`, at `void`
    Ignore(Place, Expr),
    /// `"if" "(" expr ")" stmt`, without an `else`
    If(Expr, Box<Stmt>),
    /// `"if" "(" expr ")" stmt "else" stmt`
    IfElse {
        condition: Expr,
        yes: Box<Stmt>,
        no: Box<Stmt>,
    },
    /// `("case" | "casez" | "casex") "(" expr ")" {list(expr) ":" stmt | "default" [":"] stmt} "endcase"`
    Case {
        word: CaseWord,
        subject: Expr,
        items: Vec<CaseItem>,
    },
    /// `"for" "(" (type id "=" expr | lval "=" expr) ";" expr ";" step ")" stmt`
    For {
        init: Box<ForInit>,
        condition: Expr,
        step: Box<ForStep>,
        body: Box<Stmt>,
    },
    /// `"while" "(" expr ")" stmt`
    While(Expr, Box<Stmt>),
    /// `"do" stmt "while" "(" expr ")" ";"`
    Do(Box<Stmt>, Expr),
    /// `"repeat" "(" expr ")" stmt`
    Repeat(Expr, Box<Stmt>),
    /// `"forever" stmt`
    Forever(Box<Stmt>),
    /// `"foreach" "(" id "[" id "]" ")" stmt`
    Foreach {
        array: Name,
        index: Name,
        body: Box<Stmt>,
    },
    /// `delay stmt`
    After(Delay, Box<Stmt>),
    /// `"@" event stmt`
    On(Event, Box<Stmt>),
    /// `"##" (number | id | "(" expr ")") stmt`
    Cycles {
        /// The place of `##`.
        at: Place,
        amount: Expr,
        body: Box<Stmt>,
    },
    /// `"wait" "(" expr ")" stmt`
    Wait {
        /// The place of `wait`.
        at: Place,
        condition: Expr,
        body: Box<Stmt>,
    },
    /// `"wait" "fork" ";"`
    WaitFork,
    /// `"disable" "fork" ";"`
    DisableFork,
    /// `"->" lval ";"`
    Trigger(Lval),
    /// `"break" ";"`
    Break,
    /// `"continue" ";"`
    Continue,
    /// `"return" [expr] ";"`
    Return(Option<Expr>),
}

impl Drop for Body {
    #[cycle(drop_stmt)]
    fn drop(self) {
        match self {
            Body::Null => {}
            Body::Block {
                name: _,
                decls: _,
                stmts: _,
                label: _,
            } => {}
            Body::Fork {
                name: _,
                decls: _,
                stmts: _,
                join: _,
                label: _,
            } => {}
            Body::Blocking(_) => {}
            Body::Nonblocking(_) => {}
            Body::Operator(_) => {}
            Body::Step(_, _) => {}
            Body::Call(_) => {}
            Body::Ignore(_, _) => {}
            Body::If(_, _) => {}
            Body::IfElse {
                condition: _,
                yes: _,
                no: _,
            } => {}
            Body::Case {
                word: _,
                subject: _,
                items: _,
            } => {}
            Body::For {
                init: _,
                condition: _,
                step: _,
                body: _,
            } => {}
            Body::While(_, _) => {}
            Body::Do(_, _) => {}
            Body::Repeat(_, _) => {}
            Body::Forever(_) => {}
            Body::Foreach {
                array: _,
                index: _,
                body: _,
            } => {}
            Body::After(_, _) => {}
            Body::On(_, _) => {}
            Body::Cycles {
                at: _,
                amount: _,
                body: _,
            } => {}
            Body::Wait {
                at: _,
                condition: _,
                body: _,
            } => {}
            Body::WaitFork => {}
            Body::DisableFork => {}
            Body::Trigger(_) => {}
            Body::Break => {}
            Body::Continue => {}
            Body::Return(_) => {}
        }
    }
}
