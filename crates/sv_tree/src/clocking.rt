// Clocking blocks (IEEE 1800-2017, A.6.11).
use crate::{Direction, EdgeWord, Expr, Name};
use sv_value::Place;

/// `skew`: when a clocking signal is sampled or driven, at `#` (A.6.11)
pub enum Skew {
    /// `"#" "1step"`
    OneStep(Place),
    /// `"#" (number | time | id | "(" expr ")")`
    Amount(Place, Expr),
}

impl Drop for Skew {
    fn drop(self) {
        match self {
            Skew::OneStep(_) => {}
            Skew::Amount(_, _) => {}
        }
    }
}

/// A direction of clocking signals, with its skew: `("input" | "output") [skew] | "inout"`
pub struct Sided {
    pub direction: Direction,
    pub skew: Option<Skew>,
}

impl Drop for Sided {
    fn drop(self) {
        let Sided {
            direction: _,
            skew: _,
        } = self;
    }
}

/// `citems`: an item of a clocking block (A.6.11)
pub enum ClockingItem {
    /// `"default" {("input" | "output") skew} ";"`
    Default(Vec<Sided>),
    /// `("input" [skew] | "output" [skew] | "input" [skew] "output" [skew] | "inout") list(id) ";"`
    Signals(Vec<Sided>, Vec<Name>),
}

impl Drop for ClockingItem {
    fn drop(self) {
        match self {
            ClockingItem::Default(_) => {}
            ClockingItem::Signals(_, _) => {}
        }
    }
}

/// `["default"] "clocking" id "@" "(" ["posedge" | "negedge"] id ")" ";" {citems} "endclocking" [":" id]` (A.6.11)
pub struct ClockingBlock {
    /// The place of `default`, where it is written.
    pub default: Option<Place>,
    pub name: Name,
    pub edge: EdgeWord,
    /// The object whose edge or change is the event.
    pub event: Name,
    pub items: Vec<ClockingItem>,
    /// The name after `endclocking`.
    pub label: Option<Name>,
}

impl Drop for ClockingBlock {
    fn drop(self) {
        let ClockingBlock {
            default: _,
            name: _,
            edge: _,
            event: _,
            items: _,
            label: _,
        } = self;
    }
}
