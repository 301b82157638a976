// What a write changed.
use sv_arena::Name;
use sv_store::Overwritten;
use sv_value::Val;

/// What was changed, with what was there before.
#[derive(Clone, Copy)]
pub enum Change<'o> {
    /// An element of an object, or a driver of a net.
    Object(&'o Overwritten),
    /// A variable of the activation with a name.
    Variable {
        name: Name,
        /// Its place among the variables of the activation.
        variable: u32,
        old: &'o Val,
    },
}
