// Classes that are announced by `typedef class` (IEEE 1800-2017, 8.27): E58.
ghost use Rattle.std.specs.Prelude.{◌≡◌, ◌&&◌, map};
ghost use Rattle.sv_names.specs.Classes as classes;
ghost use Rattle.sv_elab_scope.specs.Views.{entry_in};
ghost use Rattle.sv_elab_class.specs.Rules as class_rules;

use crate::guards::rule;
use sv_elab_scope::{Declared, Entry};
use sv_names::{Checked, and_guard, same_bytes};

/// Whether a declaration declares a class of the name.
fn declares(name: &[u8], entry: &Entry) -> bool
    ensures { result ≡ class_rules.declares name.now (entry_in entry.now) }
{
    let is_class = matches!(&entry.what, Declared::Class(_, _));
    same_bytes(name, entry.name.text.bytes()) && is_class
}

/// Whether a scope declares a class of the name.
fn is_declared(name: &[u8], entries: &[Entry]) -> bool
    ensures { result ≡ classes.is_declared name.now (map entry_in entries.now) }
{
    for entry in entries {
        if declares(name, entry) {
            return true;
        }
    }
    false
}

/// E58: a class that is announced is declared in the same scope.
fn announced(entries: &[Entry], entry: &Entry) -> Checked<()>
    ensures { result ≡ classes.announced (map entry_in entries.now) (entry_in entry.now) }
{
    match &entry.what {
        Declared::Announcement => {
            let is_there = is_declared(entry.name.text.bytes(), entries);
            rule(58, entry.name.at, !is_there)
        }
        _ => Checked::Good(()),
    }
}

/// E58: what the announcements of a scope break.
#[tactic(auto, using(crate::proofs::GuardLaws::none_before, crate::proofs::GuardLaws::none_behind))]
pub fn announcements_stand(entries: &[Entry]) -> Checked<()>
    ensures { result ≡ classes.announcements_stand (map entry_in entries.now) }
{
    let mut guards = Checked::Good(());
    let mut left = entries;
    while let [one, rest @ ..] = left {
        guards = and_guard(guards, announced(entries, one));
        left = rest;
    }
    guards
}
