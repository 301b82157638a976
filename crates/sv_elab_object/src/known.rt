// What the declarations of a scope break (IEEE 1800-2017, 6.19, 13 and 23.9): E56, and the rules of each declaration.
ghost use Rattle.std.specs.Prelude.{◌≡◌, List, [], ◌∷◌, map, option_map, IfOk, IfErr};
ghost use Rattle.sv_value.specs.Operators.{all_same};
ghost use Rattle.sv_names.specs.declared.checked.Checked.TheVariants.{Good};
ghost use Rattle.sv_names.specs.declared.named.Known.{Known as known_of};
ghost use Rattle.sv_names.specs.declared.refusal.Refusal.TheVariants.{Memory};
ghost use Rattle.sv_names.specs.Checked as rules;
ghost use Rattle.sv_names.specs.Checked.{◌where_also◌};
ghost use Rattle.sv_names.specs.Given.{Gives};
ghost use Rattle.sv_names.specs.Scopes as scopes;
ghost use Rattle.sv_elab_object.specs.Known as known_by;

use std::alloc::Global;
use sv_arith::case_matches;
use sv_elab_value::bits_of;
use sv_names::{
    Callee, Checked, Fault, Formal, Known, Named, Refusal, Typed, and_guard, answer, where_also,
};
use sv_value::{Bits, CaseKind};

// ---- the rules of each declaration

/// Only whether a part breaks a rule.
fn only<A>(part: &Checked<A>) -> Checked<()>
    ensures { result ≡ rules.only part.now }
{
    match part {
        Checked::Good(_) => Checked::Good(()),
        Checked::Broken(f) => Checked::Broken(*f),
    }
}

/// What a default breaks.
fn default_stands(default: &Option<Checked<Typed>>) -> Checked<()>
    ensures { result ≡ known_by.default_stands default.now }
{
    match default {
        None => Checked::Good(()),
        Some(value) => only(value),
    }
}

/// What an argument breaks.
fn formal_stands(formal: &Formal) -> Checked<()>
    ensures { result ≡ known_by.formal_stands formal.now }
{
    and_guard(only(&formal.ty), default_stands(&formal.default))
}

/// What arguments break.
fn formals_stand(formals: &[Formal]) -> Checked<()>
    ensures { result ≡ rules.all known_by.formal_stands formals.now }
{
    let mut guards = Checked::Good(());
    for formal in formals {
        guards = and_guard(guards, formal_stands(formal));
    }
    guards
}

/// What the head of a subroutine breaks.
#[tactic(auto, using(crate::proofs::KnownLaws::callee_is))]
fn callee_stands(callee: &Callee) -> Checked<()>
    ensures { result ≡ scopes.callee_stands callee.now }
{
    and_guard(
        only(&callee.result),
        formals_stand(callee.formals.as_slice()),
    )
}

/// What a name breaks that stands for this.
fn named_stands(named: &Named) -> Checked<()>
    ensures { result ≡ scopes.name_stands (Good named.now) }
{
    match named {
        Named::Subroutine(callee) => callee_stands(callee.get()),
        _ => Checked::Good(()),
    }
}

/// What a name breaks.
pub fn name_stands(value: &Checked<Named>) -> Checked<()>
    ensures { result ≡ scopes.name_stands value.now }
{
    match value {
        Checked::Good(named) => named_stands(named),
        Checked::Broken(f) => Checked::Broken(*f),
    }
}

/// What each name breaks.
fn names_stand(known: &[Known]) -> Checked<()>
    ensures { result ≡ rules.all known_by.known_stands known.now }
{
    let mut guards = Checked::Good(());
    for one in known {
        guards = and_guard(guards, name_stands(&one.value));
    }
    guards
}

// ---- the items of enums

/// The value of a declaration that is an item of an enum.
fn item_in(known: &Known) -> Option<&Typed>
    ensures { option_map (λ t. t.now) result ≡ scopes.item_in known.now }
{
    match &known.value {
        Checked::Good(Named::Constant(t, is_parameter)) => {
            if *is_parameter { None } else { Some(t.get()) }
        }
        _ => None,
    }
}

/// Whether two vectors have the same symbols.
#[tactic(auto, using(sv_eval::proofs::TextLaws::other_lengths))]
fn same_symbols(a: Bits, b: Bits) -> bool
    ensures { result ≡ all_same a.symbols b.symbols }
{
    if a.width() == b.width() {
        case_matches(CaseKind::Exact, a, b)
    } else {
        false
    }
}

/// Whether two items are those of one enum, and have one value.
fn equal_items(t: &Typed, u: &Typed) -> Result<bool, Refusal>
    ensures ok { IfOk result (λ b. b ≡ scopes.equal_items t.now u.now) }
    ensures err { IfErr result (λ e. e ≡ Memory) }
{
    if !t.ty.is_same_enum(&u.ty) {
        return Ok(false);
    }
    let a = bits_of(&t.code.value)?;
    let b = bits_of(&u.code.value)?;
    Ok(same_symbols(a, b))
}

/// Whether one of these items has the same value.
fn has_equal(t: &Typed, seen: &[&Typed]) -> Result<bool, Refusal>
    ensures ok { IfOk result (λ b. b ≡ scopes.has_equal t.now (map (λ u. u.now) seen.now)) }
    ensures err { IfErr result (λ e. e ≡ Memory) }
{
    for u in seen {
        if equal_items(t, *u)? {
            return Ok(true);
        }
    }
    Ok(false)
}

/// E56: an item has the value of one before it.
fn and_item<'a>(
    guards: Checked<()>,
    known: &'a Known,
    t: &'a Typed,
    seen: &mut Vec<&'a Typed>,
) -> Result<Checked<()>, Refusal>
    ensures ok { IfOk result (λ g. g
        ≡ (guards where_also rules.rule 56 known.now.name.at (scopes.has_equal t.now (map (λ u. u.now) seen.old.items)))) }
    ensures seen { IfOk result (λ _. map (λ u. u.now) seen.new.items ≡ t.now ∷ map (λ u. u.now) seen.old.items) }
    ensures err { IfErr result (λ e. e ≡ Memory) }
{
    let is_equal = has_equal(t, seen)?;
    seen.insert(0, t)?;
    if is_equal {
        let fault = Fault {
            at: known.name.at,
            rule: 56,
        };
        return Ok(and_guard(guards, Checked::Broken(fault)));
    }
    Ok(and_guard(guards, Checked::Good(())))
}

/// E56: the same, where a declaration is an item of an enum.
#[tactic(auto, using(crate::proofs::KnownLaws::item_step, crate::proofs::KnownLaws::other_step))]
fn and_known<'a>(
    guards: Checked<()>,
    known: &'a Known,
    seen: &mut Vec<&'a Typed>,
) -> Result<Checked<()>, Refusal>
    ensures ok { IfOk result (λ g. (rest : List known_of)
        → (g where_also scopes.items_differ (map (λ u. u.now) seen.new.items) rest)
        ≡ (guards where_also scopes.items_differ (map (λ u. u.now) seen.old.items) (known.now ∷ rest))) }
    ensures err { IfErr result (λ e. e ≡ Memory) }
{
    match item_in(known) {
        None => Ok(guards),
        Some(t) => and_item(guards, known, t, seen),
    }
}

/// E56: two items of one enum have one value.
fn items_differ(alloc: Global, known: &[Known]) -> Result<(), Refusal>
    ensures { Gives result (scopes.items_differ [] known.now) }
{
    let mut guards = Checked::Good(());
    let mut seen = Vec::new(alloc);
    for one in known {
        guards = and_known(guards, one, &mut seen)?;
    }
    answer(guards)
}

// ---- all of them

/// What each declaration breaks, and E56.
#[tactic(auto, using(crate::proofs::KnownLaws::known_is))]
pub fn known_stand(alloc: Global, known: &[Known]) -> Result<(), Refusal>
    ensures { Gives result (scopes.known_stand known.now) }
{
    where_also(answer(names_stand(known)), items_differ(alloc, known))
}
