// Where and how initializers are written (IEEE 1800-2017, 6.21): E25, E41.
ghost use Rattle.std.specs.Prelude.{◌≡◌, option_map};
ghost use Rattle.sv_tree.specs.StmtView as view;
ghost use Rattle.sv_names.specs.Assignments as assignments;
ghost use Rattle.sv_names.specs.Blocks as blocks;
ghost use Rattle.sv_names.specs.Given.{Gives};

use sv_elab_object::sv_elab_value::rule;
use sv_elab_write::sv_elab_expr::place_of;
use sv_names::Refusal;
use sv_tree::{Init, Life};
use sv_value::Place;

/// Whether `static` is written.
fn is_static_word(life: Life) -> bool
    ensures { result ≡ blocks.is_static_word life }
{
    match life {
        Life::Static => true,
        Life::Automatic => false,
        Life::Unwritten => false,
    }
}

/// The first token of what initializes.
fn place_of_init(value: &Init) -> Place
    ensures { result ≡ assignments.place_of_init (view.init value.now) }
{
    match value {
        Init::Value(e) => place_of(e),
        Init::New(at, _) => *at,
        Init::Copy(at, _) => *at,
        Init::Array { at, .. } => *at,
    }
}

/// E41: an initializer of a static variable needs the word `static`.
pub fn word_stands(life: Life, init: &Option<Init>) -> Result<(), Refusal>
    ensures { Gives result (blocks.word_stands life (option_map view.init init.now)) }
{
    match init {
        None => Ok(()),
        Some(value) => rule(41, place_of_init(value), !is_static_word(life)),
    }
}

/// E25: `new[n]` and `new h` initialize no static variable, whatever its type.
pub fn opening_stands(value: &Init) -> Result<(), Refusal>
    ensures { Gives result (assignments.not_at_opening (view.init value.now)) }
{
    match value {
        Init::Value(_) => Ok(()),
        Init::New(_, _) => Ok(()),
        Init::Copy(at, _) => Err(Refusal::Rule { rule: 25, at: *at }),
        Init::Array { at, .. } => Err(Refusal::Rule { rule: 25, at: *at }),
    }
}
