// Methods that override those of the bases, and pure methods that are left (IEEE 1800-2017, 8.20 and 8.21): E34, E35.
ghost use Rattle.std.specs.Prelude.{◌≡◌, option_map};
ghost use Rattle.sv_names.specs.Checked as rules;
ghost use Rattle.sv_names.specs.Classes as classes;
ghost use Rattle.sv_names.specs.Types as types;
ghost use Rattle.sv_names.specs.Views.{around_in};
ghost use Rattle.sv_elab_declare.specs.Alone.{class_in as class_path};
ghost use Rattle.sv_elab_class.specs.Rules as class_rules;

use crate::guards::rule;
use sv_names::{
    Around, Callee, Checked, ClassInfo, Formal, Known, Named, Ty, and_guard, same_bytes,
};
use sv_tree::{Direction, Name};
use sv_value::{Place, Text};

// ---- heads against heads

/// Whether two arguments have one direction.
fn same_direction(a: Direction, b: Direction) -> bool
    ensures { result ≡ classes.same_direction a b }
{
    match a {
        Direction::Input => matches!(b, Direction::Input),
        Direction::Output => matches!(b, Direction::Output),
        Direction::Inout => matches!(b, Direction::Inout),
    }
}

/// Whether two flags are one.
fn same_flag(a: bool, b: bool) -> bool
    ensures { result ≡ types.same_flag a b }
{
    if a { b } else { !b }
}

/// Whether two types are one, where they break no rule.
fn types_agree(a: &Checked<Ty>, b: &Checked<Ty>) -> Checked<bool>
    ensures { result ≡ class_rules.types_agree a.now b.now }
{
    match a {
        Checked::Good(t) => match b {
            Checked::Good(u) => Checked::Good(t.is_same(u)),
            Checked::Broken(g) => Checked::Broken(*g),
        },
        Checked::Broken(f) => match b {
            Checked::Good(_) => Checked::Broken(*f),
            Checked::Broken(g) => Checked::Broken(f.earlier(*g)),
        },
    }
}

/// Whether all of these are so, where they break no rule.
fn all_agree(test: bool, first: Checked<bool>, second: Checked<bool>) -> Checked<bool>
    ensures { result ≡ class_rules.all_agree test first second }
{
    match first {
        Checked::Good(x) => match second {
            Checked::Good(y) => Checked::Good(test && x && y),
            Checked::Broken(g) => Checked::Broken(g),
        },
        Checked::Broken(f) => match second {
            Checked::Good(_) => Checked::Broken(f),
            Checked::Broken(g) => Checked::Broken(f.earlier(g)),
        },
    }
}

/// Whether two lists of arguments agree.
#[tactic(auto, using(crate::proofs::OverrideLaws::formals_step))]
fn same_formals(a: &[Formal], b: &[Formal]) -> Checked<bool>
    ensures { result ≡ classes.same_formals a.now b.now }
{
    match a {
        [] => match b {
            [] => Checked::Good(true),
            [_, ..] => Checked::Good(false),
        },
        [f, more @ ..] => match b {
            [] => Checked::Good(false),
            [g, others @ ..] => {
                let rest = same_formals(more, others);
                let types = types_agree(&f.ty, &g.ty);
                all_agree(same_direction(f.direction, g.direction), types, rest)
            }
        },
    }
}

/// E34: what must be so.
fn agreed(at: Place, test: Checked<bool>) -> Checked<()>
    ensures { result ≡ class_rules.agreed at test }
{
    match test {
        Checked::Good(is_so) => rule(34, at, !is_so),
        Checked::Broken(f) => Checked::Broken(f),
    }
}

/// E34: a method against the virtual one of its name in a base: both are tasks or functions, static or not, and have the same arguments and result.
#[tactic(auto, using(crate::proofs::OverrideLaws::overrides_is))]
fn overrides(name: &Name, own: &Callee, base: &Callee) -> Checked<()>
    ensures { result ≡ classes.overrides name.now own.now base.now }
{
    let formals = same_formals(own.formals.as_slice(), base.formals.as_slice());
    let results = types_agree(&own.result, &base.result);
    let words = same_flag(own.is_task, base.is_task) && same_flag(own.is_static, base.is_static);
    agreed(name.at, all_agree(words, results, formals))
}

// ---- members

/// E34: a method of this name against that of a base.
fn against(name: &Name, own: &Callee, base: Option<&Callee>) -> Checked<()>
    ensures { result ≡ class_rules.against name.now own.now (option_map (λ c. c.now) base.entry) }
{
    if same_bytes(name.text.bytes(), b"new") {
        return Checked::Good(());
    }
    match base {
        None => Checked::Good(()),
        Some(base) => {
            if base.is_virtual {
                return overrides(name, own, base);
            }
            Checked::Good(())
        }
    }
}

/// E34: a member that overrides a virtual method of a base.
fn override_stands(around: &Around, base: Option<&[Text]>, member: &Known) -> Checked<()>
    ensures { result ≡ classes.override_stands (around_in around.now) (class_path base.entry) member.now }
{
    let Some(base) = base else {
        return Checked::Good(());
    };
    match &member.value {
        Checked::Good(Named::Subroutine(own)) => {
            let inherited = around.method_of(base, member.name.text.bytes());
            against(&member.name, own.get(), inherited)
        }
        _ => Checked::Good(()),
    }
}

/// E34: what the members of a class with this base break that override its virtual methods.
#[tactic(auto, using(crate::proofs::GuardLaws::none_before, crate::proofs::GuardLaws::none_behind))]
pub fn overrides_stand(around: &Around, base: Option<&[Text]>, members: &[Known]) -> Checked<()>
    ensures { result ≡ rules.all (classes.override_stands (around_in around.now) (class_path base.entry)) members.now }
{
    let mut guards = Checked::Good(());
    let mut left = members;
    while let [one, rest @ ..] = left {
        guards = and_guard(guards, override_stands(around, base, one));
        left = rest;
    }
    guards
}

// ---- pure methods

/// Whether a pure method stands in the slot of this name.
fn is_left_pure(around: &Around, class: &ClassInfo, name: &[u8]) -> bool
    ensures { result ≡ classes.is_left_pure (around_in around.now) class.now name.now }
{
    match around.method_of(class.path.as_slice(), name) {
        None => false,
        Some(method) => method.is_pure,
    }
}

/// Whether a pure method stands in one of the slots.
pub fn some_left_pure(around: &Around, class: &ClassInfo, slots: &[Text]) -> bool
    ensures { result ≡ classes.some_left (around_in around.now) class.now slots.now }
{
    for slot in slots {
        if is_left_pure(around, class, slot.bytes()) {
            return true;
        }
    }
    false
}
