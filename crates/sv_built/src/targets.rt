// Whether targets and event expressions are built.
ghost use Rattle.std.specs.Prelude.{◌↔◌, IsTrue};
ghost use Rattle.std.specs.List.{AllByRecursion};
ghost use Rattle.sv_built.specs.Built.{IsBuiltBase, IsBuiltPart, IsBuiltTarget, IsBuiltEdge, IsBuiltWatch};

use crate::exprs::{is_built_expr, is_built_optional};
use sv_flat::{Base, Edge, Lvalue, Part, Watch};

/// Whether all of these are built.
pub fn are_built_targets(targets: &[Lvalue]) -> bool
    ensures { IsTrue result ↔ AllByRecursion IsBuiltTarget targets.now }
{
    for target in targets {
        if !is_built_target(target) {
            return false;
        }
    }
    true
}

fn is_built_target(target: &Lvalue) -> bool
    ensures { IsTrue result ↔ IsBuiltTarget target.now }
{
    target.through.is_none() && is_built_base(&target.base) && is_built_part(&target.part)
}

fn is_built_base(base: &Base) -> bool
    ensures { IsTrue result ↔ IsBuiltBase base.now }
{
    match base {
        Base::Object(_) => true,
        Base::Driver(_, _) => true,
        Base::Element { index, .. } => is_built_expr(index),
        Base::Local { .. } => true,
        Base::LocalElement { index, .. } => is_built_expr(index),
        _ => false,
    }
}

fn is_built_part(part: &Option<Part>) -> bool
    ensures { IsTrue result ↔ IsBuiltPart part.now }
{
    match part {
        None => true,
        Some(part) => is_built_expr(&part.index),
    }
}

/// Whether all of these are built.
pub fn are_built_watches(watches: &[Watch]) -> bool
    ensures { IsTrue result ↔ AllByRecursion IsBuiltWatch watches.now }
{
    for watch in watches {
        if !is_built_watch(watch) {
            return false;
        }
    }
    true
}

fn is_built_watch(watch: &Watch) -> bool
    ensures { IsTrue result ↔ IsBuiltWatch watch.now }
{
    match watch {
        Watch::On {
            expr,
            edge,
            condition,
        } => is_built_edge(*edge) && is_built_expr(expr) && is_built_optional(condition),
        Watch::Updates(_, _) => false,
    }
}

fn is_built_edge(edge: Edge) -> bool
    ensures { IsTrue result ↔ IsBuiltEdge edge }
{
    match edge {
        Edge::Change => true,
        Edge::Posedge => true,
        Edge::Negedge => true,
        Edge::Trigger => false,
    }
}
