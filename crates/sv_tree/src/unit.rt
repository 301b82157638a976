// Descriptions: what a file consists of (IEEE 1800-2017, A.1 to A.2).
use crate::{
    Class, ClockingBlock, Decl, Direction, Expr, ImpliedType, Life, Lval, Name, ParamWord,
    PortDirection, ProcedureWord, Range, Sign, Stmt, WrittenType,
};
use sv_value::Place;

// ---- parameters, ports, connections

/// `param = ("parameter" | "localparam") [itype] list(id "=" expr)` (A.2.1.1)
pub struct Param {
    pub word: ParamWord,
    pub of: ImpliedType,
    pub names: Vec<ParamItem>,
}

impl Drop for Param {
    fn drop(self) {
        let Param {
            word: _,
            of: _,
            names: _,
        } = self;
    }
}

/// A parameter and its value: `id "=" expr`
pub struct ParamItem {
    pub name: Name,
    pub value: Expr,
}

impl Drop for ParamItem {
    fn drop(self) {
        let ParamItem { name: _, value: _ } = self;
    }
}

/// `port = [("input" | "output") ["wire" | "tri"] [itype]] id` (A.1.3). The first of a list has a direction.
pub struct Port {
    pub direction: Option<PortDirection>,
    /// Whether `wire` or `tri` is written.
    pub is_net: bool,
    pub of: ImpliedType,
    pub name: Name,
}

impl Drop for Port {
    fn drop(self) {
        let Port {
            direction: _,
            is_net: _,
            of: _,
            name: _,
        } = self;
    }
}

/// `conn = expr | "." id ["(" [expr] ")"] | ".*"` (A.4.1.1)
pub enum Connection {
    /// `expr`
    Value(Expr),
    /// `"." id`, at the dot
    Named(Place, Name),
    /// `"." id "(" [expr] ")"`
    Given {
        /// The place of the dot.
        at: Place,
        name: Name,
        value: Option<Expr>,
    },
    /// `".*"`, at the sign
    All(Place),
}

impl Drop for Connection {
    fn drop(self) {
        match self {
            Connection::Value(_) => {}
            Connection::Named(_, _) => {}
            Connection::Given {
                at: _,
                name: _,
                value: _,
            } => {}
            Connection::All(_) => {}
        }
    }
}

/// `id "(" [list(conn)] ")"` (A.4.1.1)
pub struct Instance {
    pub name: Name,
    pub connections: Vec<Connection>,
}

impl Drop for Instance {
    fn drop(self) {
        let Instance {
            name: _,
            connections: _,
        } = self;
    }
}

// ---- subroutines and types

/// An argument of a subroutine: `[dir] [itype] id ["=" expr]` (A.2.7)
pub struct Argument {
    pub direction: Option<Direction>,
    pub of: ImpliedType,
    pub name: Name,
    pub default: Option<Expr>,
}

impl Drop for Argument {
    fn drop(self) {
        let Argument {
            direction: _,
            of: _,
            name: _,
            default: _,
        } = self;
    }
}

/// What a subroutine is and gives: the words `function`, `task` and `void`, and the type of the result (A.2.6, A.2.7)
pub enum Returns {
    /// A task.
    Task,
    /// A function with `void`.
    Void,
    /// A function with a type, or with none; a constructor has none.
    Value(ImpliedType),
}

impl Drop for Returns {
    fn drop(self) {
        match self {
            Returns::Task => {}
            Returns::Void => {}
            Returns::Value(_) => {}
        }
    }
}

/// `head = "function" [life] ("new" | ["void" | itype] id) [args] | "task" [life] id [args]`, at its word (A.2.6, A.2.7).
/// A constructor has the name `new`.
pub struct Head {
    pub at: Place,
    pub life: Life,
    pub returns: Returns,
    pub name: Name,
    pub arguments: Vec<Argument>,
}

impl Drop for Head {
    fn drop(self) {
        let Head {
            at: _,
            life: _,
            returns: _,
            name: _,
            arguments: _,
        } = self;
    }
}

/// `routine = head ";" {decl} {stmt} ("endfunction" | "endtask") [":" (id | "new")]` (A.2.6, A.2.7)
pub struct Routine {
    pub head: Head,
    pub decls: Vec<Decl>,
    pub stmts: Vec<Stmt>,
    /// The name after the last word.
    pub label: Option<Name>,
}

impl Drop for Routine {
    fn drop(self) {
        let Routine {
            head: _,
            decls: _,
            stmts: _,
            label: _,
        } = self;
    }
}

/// `"typedef" type id ";"` (A.2.1.3)
pub struct Typedef {
    pub of: WrittenType,
    pub name: Name,
}

impl Drop for Typedef {
    fn drop(self) {
        let Typedef { of: _, name: _ } = self;
    }
}

// ---- items

/// A net, and the expression that drives it: `id ["=" expr]` (A.2.4)
pub struct NetItem {
    pub name: Name,
    pub value: Option<Expr>,
}

impl Drop for NetItem {
    fn drop(self) {
        let NetItem { name: _, value: _ } = self;
    }
}

/// `net = ("wire" | "tri") ["logic"] [sign] [range] list(id ["=" expr]) ";"`, at its word (A.2.1.3)
pub struct NetDecl {
    pub at: Place,
    pub sign: Sign,
    pub range: Option<Range>,
    pub names: Vec<NetItem>,
}

impl Drop for NetDecl {
    fn drop(self) {
        let NetDecl {
            at: _,
            sign: _,
            range: _,
            names: _,
        } = self;
    }
}

/// A continuous assignment: `lval "=" expr` (A.6.1)
pub struct AssignItem {
    pub target: Lval,
    pub value: Expr,
}

impl Drop for AssignItem {
    fn drop(self) {
        let AssignItem {
            target: _,
            value: _,
        } = self;
    }
}

/// `inst = id ["#" "(" list(conn) ")"] list(id "(" [list(conn)] ")") ";"` (A.4.1.1)
pub struct Instances {
    /// The name of what is instantiated.
    pub of: Name,
    /// The values of its parameters.
    pub params: Vec<Connection>,
    pub list: Vec<Instance>,
}

impl Drop for Instances {
    fn drop(self) {
        let Instances {
            of: _,
            params: _,
            list: _,
        } = self;
    }
}

/// `("initial" | "always" | "always_comb" | "always_ff") stmt`, at its word (A.6.2)
pub struct Procedure {
    pub at: Place,
    pub word: ProcedureWord,
    pub body: Stmt,
}

impl Drop for Procedure {
    fn drop(self) {
        let Procedure {
            at: _,
            word: _,
            body: _,
        } = self;
    }
}

/// `mitem`, `pitem`, and what stands outside modules and programs (A.1.4, A.1.7)
pub enum Item {
    /// `net`
    Net(Box<NetDecl>),
    /// `"assign" list(lval "=" expr) ";"`
    Assign(Vec<AssignItem>),
    /// `inst`
    Instances(Box<Instances>),
    /// `("initial" | "always" | "always_comb" | "always_ff") stmt`
    Procedure(Box<Procedure>),
    /// `decl`
    Decl(Box<Decl>),
    /// `"typedef" type id ";"`
    Typedef(Box<Typedef>),
    /// `"typedef" "class" id ";"`
    Announce(Name),
    /// `class`
    Class(Box<Class>),
    /// `param ";"`
    Param(Box<Param>),
    /// `routine`
    Routine(Box<Routine>),
    /// `["default"] "clocking" id "@" .. "endclocking" [":" id]`
    Clocking(Box<ClockingBlock>),
    /// `"default" "clocking" id ";"`, at `default`
    DefaultClocking(Place, Name),
    /// `";"`
    Null,
}

impl Drop for Item {
    fn drop(self) {
        match self {
            Item::Net(_) => {}
            Item::Assign(_) => {}
            Item::Instances(_) => {}
            Item::Procedure(_) => {}
            Item::Decl(_) => {}
            Item::Typedef(_) => {}
            Item::Announce(_) => {}
            Item::Class(_) => {}
            Item::Param(_) => {}
            Item::Routine(_) => {}
            Item::Clocking(_) => {}
            Item::DefaultClocking(_, _) => {}
            Item::Null => {}
        }
    }
}

/// A design element (3.2): from its word to its end (A.1.2),
/// `[life] id [pports] [ports] ";" {item} end [":" id]`,
/// where `pports = "#" "(" list(["parameter"] [itype] id "=" expr) ")"` and `ports = "(" [list(port)] ")"`.
pub struct DesignElement {
    pub at: Place,
    pub life: Life,
    pub name: Name,
    /// The parameters, where brackets for them are written.
    pub params: Option<Vec<Param>>,
    pub ports: Vec<Port>,
    pub items: Vec<Item>,
    /// The name after its last word.
    pub label: Option<Name>,
}

impl Drop for DesignElement {
    fn drop(self) {
        let DesignElement {
            at: _,
            life: _,
            name: _,
            params: _,
            ports: _,
            items: _,
            label: _,
        } = self;
    }
}

/// `unit = module | program | class | typedef | param ";" | routine | ";"` (A.1.2)
pub enum Description {
    /// `module = "module" [life] id [pports] [ports] ";" {mitem} "endmodule" [":" id]`
    Module(Box<DesignElement>),
    /// `program = "program" [life] id [pports] [ports] ";" {pitem} "endprogram" [":" id]`
    Program(Box<DesignElement>),
    /// What stands outside modules and programs: `class | typedef | param ";" | routine | ";"`
    Item(Item),
}

impl Drop for Description {
    fn drop(self) {
        match self {
            Description::Module(_) => {}
            Description::Program(_) => {}
            Description::Item(_) => {}
        }
    }
}
