// How the signals of a clocking block are passed (IEEE 1800-2017, 14.3).
ghost use Rattle.std.specs.Prelude.{◌≡◌, map};
ghost use Rattle.sv_tree.specs.UnitView.{sided};
ghost use Rattle.sv_names.specs.Scopes as scopes;

use sv_tree::{Direction, Sided};

/// Whether a signal is sampled.
pub fn is_input_side(direction: Direction) -> bool
    ensures { result ≡ scopes.is_input_side direction }
{
    match direction {
        Direction::Input => true,
        Direction::Output => false,
        Direction::Inout => true,
    }
}

/// Whether a signal is driven.
pub fn is_output_side(direction: Direction) -> bool
    ensures { result ≡ scopes.is_output_side direction }
{
    match direction {
        Direction::Input => false,
        Direction::Output => true,
        Direction::Inout => true,
    }
}

/// Whether one of the sides is that of a signal that is sampled.
pub fn some_input(sides: &[Sided]) -> bool
    ensures { result ≡ scopes.any_side scopes.is_input_side (map sided sides.now) }
{
    match sides {
        [] => false,
        [one, rest @ ..] => is_input_side(one.direction) || some_input(rest),
    }
}

/// Whether one of the sides is that of a signal that is driven.
pub fn some_output(sides: &[Sided]) -> bool
    ensures { result ≡ scopes.any_side scopes.is_output_side (map sided sides.now) }
{
    match sides {
        [] => false,
        [one, rest @ ..] => is_output_side(one.direction) || some_output(rest),
    }
}
