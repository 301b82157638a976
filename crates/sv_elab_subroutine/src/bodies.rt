// Where the statements of a subroutine stand (IEEE 1800-2017, 8.11, 13.3, 13.4 and 13.4.4).
ghost use Rattle.std.specs.Prelude.{◌≡◌, ◌∷◌, map};
ghost use Rattle.sv_names.specs.declared.scope.Scope.{Scope as scope_of};
ghost use Rattle.sv_names.specs.Subroutines as subroutines;
ghost use Rattle.sv_names.specs.Views.{around_in};

use sv_names::{Around, Returns, Scope};
use sv_value::Text;

/// In the statements of a subroutine with this path, whose scope is the first of these.
pub fn in_body<'a>(
    around: &Around<'a>,
    path: &'a [Text],
    scopes: &'a [&'a Scope],
    is_automatic: bool,
    has_object: bool,
    may_wait: bool,
    returns: &'a Returns,
) -> Around<'a>
    ensures { (s : scope_of) → path.entry.now ≡ s.path → map (λ x. x.now) scopes.entry.now ≡ s ∷ (around_in around.now).scopes
        → around_in result ≡ subroutines.in_body (around_in around.now) s is_automatic has_object may_wait returns.entry.now }
{
    Around {
        subroutine: Some(path),
        scopes,
        blocks: 0,
        is_automatic,
        has_object,
        may_not_wait: !may_wait,
        is_loop: false,
        returns,
        ..*around
    }
}
