// Where the parts of a statement stand.
ghost use Rattle.std.specs.Prelude.{◌≡◌};
ghost use Rattle.sv_names.specs.Events as events;
ghost use Rattle.sv_names.specs.Statements as statements;
ghost use Rattle.sv_names.specs.Views.{around_in};
ghost use Rattle.sv_elab_flow.specs.Parts as parts;

use sv_names::Around;
use sv_tree::Stmt;
use sv_value::Place;

/// The place of a statement: its first token, which can be a label (IEEE 1800-2017, 9.3.5).
pub fn place(s: &Stmt) -> Place
    ensures { result ≡ parts.place_of s.now }
{
    match &s.label {
        None => s.at,
        Some(name) => name.at,
    }
}

/// Behind the hidden variables of a statement, which make an activation.
pub fn raised<'a>(around: &Around<'a>) -> Around<'a>
    ensures { around_in result ≡ record (around_in around.now) { up = 1 } }
{
    Around { up: 1, ..*around }
}

/// In the body of a loop (IEEE 1800-2017, 12.7).
pub fn in_loop<'a>(around: &Around<'a>) -> Around<'a>
    ensures { around_in result ≡ statements.in_loop (around_in around.now) }
{
    Around {
        is_loop: true,
        ..*around
    }
}

/// In an event control or a `wait`, where no call stands (IEEE 1800-2017, 9.4.2 and 9.4.3).
pub fn in_event<'a>(around: &Around<'a>) -> Around<'a>
    ensures { around_in result ≡ events.in_event (around_in around.now) }
{
    Around {
        call_rule: Some(25),
        ..*around
    }
}
