// Classes that extend themselves, and the bases of those that do not (IEEE 1800-2017, 8.13): E6, E33.
ghost use Rattle.std.specs.Prelude.{◌≡◌, map, option_map};
ghost use Rattle.sv_names.specs.Checked as rules;
ghost use Rattle.sv_names.specs.Classes as classes;
ghost use Rattle.sv_names.specs.Groups as groups;
ghost use Rattle.sv_elab_declare.specs.Alone.{class_in as class_path};
ghost use Rattle.sv_elab_class.specs.Heads.{head_in};

use crate::heads::ClassHead;
use sv_names::{Checked, Fault, Path, and_guard, same_path};
use sv_value::Text;

// ---- by paths

/// A path that may be left out.
pub fn path_in(path: &Option<Path>) -> Option<&[Text]>
    ensures { class_path result ≡ path.now }
{
    match path {
        None => None,
        Some(path) => Some(path.as_slice()),
    }
}

/// The class with this path.
pub fn class_of<'h, 'a>(path: &[Text], heads: &'h [ClassHead<'a>]) -> Option<&'h ClassHead<'a>>
    ensures { option_map (λ h. head_in h.now) result ≡ groups.head_in path.now (map head_in heads.now) }
{
    for head in heads {
        if same_path(path, head.path.as_slice()) {
            return Some(head);
        }
    }
    None
}

/// The class that the class with this path extends.
#[tactic(auto, using(crate::proofs::LineLaws::raw_is))]
fn raw_of<'h>(path: &[Text], heads: &'h [ClassHead]) -> Option<&'h [Text]>
    ensures { class_path result ≡ groups.raw_of path.now (map head_in heads.now) }
{
    match class_of(path, heads) {
        None => None,
        Some(head) => path_in(&head.raw),
    }
}

// ---- classes that extend themselves

/// Whether a class is met on the way through the bases, of which there are so many at most.
#[tactic(auto, using(crate::proofs::LineLaws::met_step, crate::proofs::LineLaws::met_none))]
fn is_met(most: u128, heads: &[ClassHead], path: &[Text], base: Option<&[Text]>) -> bool
    ensures { result ≡ groups.is_met most (map head_in heads.now) path.now (class_path base.entry) }
{
    let mut left = most;
    let mut next = base;
    while 0 < left {
        let Some(base) = next else {
            return false;
        };
        if same_path(path, base) {
            return true;
        }
        left -= 1;
        next = raw_of(base, heads);
    }
    false
}

/// Whether a class extends itself.
fn is_cyclic(heads: &[ClassHead], head: &ClassHead) -> bool
    ensures { result ≡ groups.is_cyclic (map head_in heads.now) (head_in head.now) }
{
    let most = heads.len() as u128 + 1;
    is_met(most, heads, head.path.as_slice(), path_in(&head.raw))
}

/// The base of a class that does not extend itself.
pub fn base_of<'h>(heads: &[ClassHead], head: &'h ClassHead) -> Option<&'h [Text]>
    ensures { class_path result ≡ groups.base_in (map head_in heads.now) (head_in head.now) }
{
    if is_cyclic(heads, head) {
        None
    } else {
        path_in(&head.raw)
    }
}

// ---- rules

/// E33: a class does not extend itself through others.
fn not_cyclic(heads: &[ClassHead], head: &ClassHead) -> Checked<()>
    ensures { result ≡ groups.not_cyclic (map head_in heads.now) (head_in head.now) }
{
    match &head.tree.base {
        None => Checked::Good(()),
        Some(name) => {
            if is_cyclic(heads, head) {
                return Checked::Broken(Fault {
                    at: name.at,
                    rule: 33,
                });
            }
            Checked::Good(())
        }
    }
}

/// The same, once more.
fn same(guard: &Checked<()>) -> Checked<()>
    ensures { result ≡ guard.now }
{
    match guard {
        Checked::Good(()) => Checked::Good(()),
        Checked::Broken(fault) => Checked::Broken(*fault),
    }
}

/// E6, E33: what the base of a class breaks.
fn base_rules(heads: &[ClassHead], head: &ClassHead) -> Checked<()>
    ensures { result ≡ groups.base_rules (map head_in heads.now) (head_in head.now) }
{
    and_guard(same(&head.stands), not_cyclic(heads, head))
}

/// The rule that the base of a class breaks.
pub fn base_fault(heads: &[ClassHead], head: &ClassHead) -> Option<Fault>
    ensures { result ≡ rules.fault_of (groups.base_rules (map head_in heads.now) (head_in head.now)) }
{
    match base_rules(heads, head) {
        Checked::Good(()) => None,
        Checked::Broken(fault) => Some(fault),
    }
}

/// E6, E33: what the bases of classes break.
#[tactic(auto, using(crate::proofs::GuardLaws::none_before, crate::proofs::GuardLaws::none_behind))]
pub fn bases_stand(heads: &[ClassHead]) -> Checked<()>
    ensures { result ≡ classes.bases_stand (map head_in heads.now) }
{
    let mut guards = Checked::Good(());
    let mut left = heads;
    while let [one, rest @ ..] = left {
        guards = and_guard(guards, base_rules(heads, one));
        left = rest;
    }
    guards
}
