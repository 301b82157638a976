// A variable of an activation (IEEE 1800-2017, 6.21).
use std::marker::Model;
use sv_value::Val;

/// A variable, which is seen as its value.
#[derive(Drop)]
pub struct Variable {
    pub value: Val,
}

impl Model for Variable {
    ghost use Rattle.sv_value.specs.declared.val.Val.{Val};

    ghost Value = { Val };

    ghost view = { λ v. v.value };
}

/// What stands in the room of an activation that is not used.
impl Default for Variable {
    fn default() -> Self {
        Variable {
            value: Val::Object(None),
        }
    }
}
