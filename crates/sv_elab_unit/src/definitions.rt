// Modules and programs (IEEE 1800-2017, 23.2 and 24.3).
ghost use Rattle.std.specs.Prelude.{◌≡◌, option_map};
ghost use Rattle.sv_tree.specs.UnitView.{description};
ghost use Rattle.sv_elab_unit.specs.Definitions as definitions;
ghost use Rattle.sv_elab_unit.specs.Definitions.{definition_in};

use sv_tree::{Description, DesignElement};

/// A module or a program.
#[derive(Clone, Copy)]
pub struct Definition<'a> {
    /// Whether it is a program.
    pub is_program: bool,
    /// What is written.
    pub element: &'a DesignElement,
}

/// The module or program that a description is.
pub(crate) fn definition_of<'a>(one: &'a Description) -> Option<Definition<'a>>
    ensures { option_map definition_in result ≡ definitions.definition_of (description one.now) }
{
    match one {
        Description::Module(element) => Some(Definition {
            is_program: false,
            element,
        }),
        Description::Program(element) => Some(Definition {
            is_program: true,
            element,
        }),
        Description::Item(_) => None,
    }
}
