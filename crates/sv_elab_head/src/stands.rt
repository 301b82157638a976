// The rules on the head of a subroutine: what its types and its defaults break (IEEE 1800-2017, 13.3 to 13.5).
ghost use Rattle.std.specs.Prelude.{◌≡◌};
ghost use Rattle.sv_names.specs.Checked as rules;
ghost use Rattle.sv_names.specs.Scopes as scopes;
ghost use Rattle.sv_elab_head.specs.Standing as standing;

use sv_names::{Callee, Checked, Formal, Typed, and_guard};

/// What a part breaks.
fn only<A>(part: &Checked<A>) -> Checked<()>
    ensures { result ≡ rules.only part.now }
{
    match part {
        Checked::Good(_) => Checked::Good(()),
        Checked::Broken(f) => Checked::Broken(*f),
    }
}

/// What a default breaks, where there is one.
fn default_stands(default: &Option<Checked<Typed>>) -> Checked<()>
    ensures { result ≡ standing.default_stands default.now }
{
    match default {
        None => Checked::Good(()),
        Some(value) => only(value),
    }
}

/// What an argument breaks: its type, and its default.
fn formal_stands(of: &Formal) -> Checked<()>
    ensures { result ≡ standing.formal_stands of.now }
{
    and_guard(only(&of.ty), default_stands(&of.default))
}

/// What the head of a subroutine breaks: the type of its result, its arguments and their defaults.
#[tactic(auto, using(crate::proofs::StandLaws::head_stands, crate::proofs::StandLaws::none_behind))]
pub fn callee_stands(of: &Callee) -> Checked<()>
    ensures { result ≡ scopes.callee_stands of.now }
{
    let mut guards = only(&of.result);
    let mut left = of.formals.as_slice();
    while let [one, rest @ ..] = left {
        guards = and_guard(guards, formal_stands(one));
        left = rest;
    }
    guards
}
