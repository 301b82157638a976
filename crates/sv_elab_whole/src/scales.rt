// The one time scale of all files (IEEE 1800-2017, 3.14.2 and 22.7): E54.
ghost use Rattle.std.specs.Prelude.{◌≡◌, nat_lt};
ghost use Rattle.sv_names.specs.Checked as rules;
ghost use Rattle.sv_names.specs.Design as design;
ghost use Rattle.sv_elab_whole.specs.Scales as words;

use sv_flat::Scale;
use sv_names::{Checked, Fault, and_guard};
use sv_tree::Timescale;
use sv_value::Place;

/// The first of the time scales; 1ns/1ns where there is none.
pub fn scale_of(scales: &[Timescale]) -> Scale
    ensures { result ≡ design.scale_of scales.now }
{
    match scales {
        [] => Scale {
            unit: 6,
            precision: 6,
        },
        [first, ..] => Scale {
            unit: first.unit,
            precision: first.precision,
        },
    }
}

/// E54 at a place, where it is broken there.
fn rule(at: Place, is_broken: bool) -> Checked<()>
    ensures { result ≡ rules.rule 54 at is_broken }
{
    if is_broken {
        Checked::Broken(Fault { at, rule: 54 })
    } else {
        Checked::Good(())
    }
}

/// The precision of a time scale is no larger than its unit.
fn precision_stands(one: &Timescale) -> Checked<()>
    ensures { result ≡ rules.rule 54 one.now.at (nat_lt one.now.unit one.now.precision) }
{
    rule(one.at, one.unit < one.precision)
}

/// No precision is larger than its unit.
#[tactic(auto, using(crate::proofs::ScaleLaws::none_before, crate::proofs::ScaleLaws::none_behind))]
fn precisions_stand(scales: &[Timescale]) -> Checked<()>
    ensures { result ≡ words.precisions_stand scales.now }
{
    let mut guards = Checked::Good(());
    let mut left = scales;
    while let [one, rest @ ..] = left {
        guards = and_guard(guards, precision_stands(one));
        left = rest;
    }
    guards
}

/// Two time scales are equal.
fn agrees(first: Timescale, other: &Timescale) -> Checked<()>
    ensures { result ≡ design.differs first other.now }
{
    let same = first.unit == other.unit && first.precision == other.precision;
    rule(other.at, !same)
}

/// All time scales are equal to this one.
#[tactic(auto, using(crate::proofs::ScaleLaws::none_before, crate::proofs::ScaleLaws::none_behind))]
fn all_agree(first: Timescale, others: &[Timescale]) -> Checked<()>
    ensures { result ≡ rules.all (design.differs first) others.now }
{
    let mut guards = Checked::Good(());
    let mut left = others;
    while let [one, rest @ ..] = left {
        guards = and_guard(guards, agrees(first, one));
        left = rest;
    }
    guards
}

/// E54: two time scales differ, or a precision is larger than its unit.
pub fn scales_agree(scales: &[Timescale]) -> Checked<()>
    ensures { result ≡ design.scales_agree scales.now }
{
    match scales {
        [] => Checked::Good(()),
        [first, rest @ ..] => and_guard(precisions_stand(scales), all_agree(*first, rest)),
    }
}
