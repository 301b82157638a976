// Names that a scope declares twice (IEEE 1800-2017, 8.27 and 23.9): E1, E5.
ghost use Rattle.std.specs.Prelude.{◌≡◌, [], IfOk, map};
ghost use Rattle.sv_names.specs.Checked as rules;
ghost use Rattle.sv_names.specs.Entries as names;
ghost use Rattle.sv_elab_scope.specs.Views.{entry_in};
ghost use Rattle.sv_elab_scope.specs.Repeated.{sort_in, clash_of, seen_of, seen_in, HasNames, of_rule};

use crate::declared::{Declared, Entry};
use std::alloc::Global;
use sv_names::{Checked, Fault, NameSet, and_guard, same_bytes};
use sv_value::{NoMemory, Place};

/// How a name clashes with another one.
#[derive(Clone, Copy)]
enum Sort {
    /// `typedef class`.
    Announcement,
    /// A class.
    Class,
    /// Anything else.
    Other,
}

/// The sort of a declaration.
fn sort_of(entry: &Entry) -> Sort
    ensures { sort_in result ≡ names.sort_of (entry_in entry.now).what }
{
    match &entry.what {
        Declared::Announcement => Sort::Announcement,
        Declared::Class(_, _) => Sort::Class,
        _ => Sort::Other,
    }
}

/// Whether a name may be declared so again: a class can be announced before it is declared, and after.
fn agree(first: Sort, second: Sort) -> bool
    ensures { result ≡ names.agree (sort_in first) (sort_in second) }
{
    match first {
        Sort::Announcement => match second {
            Sort::Announcement => true,
            Sort::Class => true,
            Sort::Other => false,
        },
        Sort::Class => matches!(second, Sort::Announcement),
        Sort::Other => false,
    }
}

/// Whether a declaration clashes with one before it.
fn clashes_with(entry: &Entry, before: &Entry) -> bool
    ensures { result ≡ clash_of entry.now (seen_of before.now) }
{
    same_bytes(entry.name.text.bytes(), before.name.text.bytes())
        && !agree(sort_of(before), sort_of(entry))
}

/// Whether a declaration clashes with one of those before it.
fn clashes(entry: &Entry, before: &[Entry]) -> bool
    ensures { result ≡ clash_of entry.now (seen_in before.now) }
{
    for other in before {
        if clashes_with(entry, other) {
            return true;
        }
    }
    false
}

/// The rule at a place, where it is broken there.
fn rule(rule: u8, at: Place, is_broken: bool) -> Checked<()>
    ensures { result ≡ rules.rule rule at is_broken }
{
    if is_broken {
        Checked::Broken(Fault { at, rule })
    } else {
        Checked::Good(())
    }
}

/// Whether a declaration clashes with one of those before it, whose names are known.
#[tactic(auto, using(crate::proofs::RepeatLaws::new_name))]
fn clashes_again(seen: &NameSet, entry: &Entry, before: &[Entry]) -> bool
    requires { HasNames seen.now before.now }
    ensures { result ≡ clash_of entry.now (seen_in before.now) }
{
    if !seen.has(entry.name.text.bytes()) {
        return false;
    }
    clashes(entry, before)
}

/// The same of few declarations, each of which is compared with all before it.
fn twice_among_few(number: u8, entries: &[Entry]) -> Checked<()>
    ensures { result ≡ names.twice (of_rule number) [] (map entry_in entries.now) }
{
    let mut guards = Checked::Good(());
    for (position, entry) in entries.iter().enumerate() {
        let is_broken = clashes(entry, &entries[..position]);
        guards = and_guard(guards, rule(number, entry.name.at, is_broken));
    }
    guards
}

/// So many declarations are compared with one another sooner than their names are put into a set.
const FEW: usize = 32;

/// A name that is declared twice: the rule, E5 or E1, at the second declaration. Where there are many, only one whose name was seen is compared with those
/// before it.
pub fn twice(alloc: Global, number: u8, entries: &[Entry]) -> Result<Checked<()>, NoMemory>
    ensures { IfOk result (λ c. c ≡ names.twice (of_rule number) [] (map entry_in entries.now)) }
{
    if entries.len() <= FEW {
        return Ok(twice_among_few(number, entries));
    }
    let mut seen = NameSet::new(alloc);
    let mut guards = Checked::Good(());
    for (position, entry) in entries.iter().enumerate() {
        let is_broken = clashes_again(&seen, entry, &entries[..position]);
        guards = and_guard(guards, rule(number, entry.name.at, is_broken));
        seen.add(alloc, entry.name.text.bytes())?;
    }
    Ok(guards)
}
