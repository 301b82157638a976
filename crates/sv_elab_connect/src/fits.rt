// The rules on lists of connections and of values for parameters (IEEE 1800-2017, 23.3.2 and 23.10.2): E8, E10.
ghost use Rattle.std.specs.Prelude.{◌≡◌, [], IfOk, IfErr, OnOk, map, option_map};
ghost use Rattle.sv_tree.specs.UnitView.{connection};
ghost use Rattle.sv_names.specs.declared.refusal.Refusal.TheVariants.{Memory};
ghost use Rattle.sv_names.specs.Connections as connections;
ghost use Rattle.sv_names.specs.Items as items;
ghost use Rattle.sv_names.specs.Given.{Gives};
ghost use Rattle.sv_elab_unit.specs.Definitions.{names_in};
ghost use Rattle.sv_elab_connect.specs.Links.{named_by};
ghost use Rattle.sv_elab_connect.specs.Fits as fits;

use crate::connections::named_by;
use std::alloc::Global;
use sv_elab_expr::place_of;
use sv_elab_unit::{is_among, put_first};
use sv_names::{Checked, Fault, Refusal, and_guard, answer};
use sv_tree::Connection;
use sv_value::{NoMemory, Place};

/// What a list of connections is for.
#[derive(Clone, Copy)]
enum ListOf {
    /// Ports, which `.*` connects (E8).
    Ports,
    /// Values of parameters (E10).
    Parameters,
}

/// The rule that a wrong name breaks.
fn rule_of(list: ListOf) -> u8
    ensures { result ≡ fits.rule_of list }
{
    match list {
        ListOf::Ports => 8,
        ListOf::Parameters => 10,
    }
}

/// E8, E10: a name at a place is none of these, or stands before.
fn named_once(
    rule: u8,
    names: &[&[u8]],
    seen: &[&[u8]],
    at: Place,
    name: Option<&[u8]>,
) -> Checked<()>
    ensures { result ≡ fits.named_once rule (names_in names.now) (names_in seen.now) at (option_map (λ n. n.now) name.entry) }
{
    match name {
        None => Checked::Broken(Fault { at, rule }),
        Some(name) => {
            if !is_among(name, names) {
                return Checked::Broken(Fault { at, rule });
            }
            if is_among(name, seen) {
                return Checked::Broken(Fault { at, rule });
            }
            Checked::Good(())
        }
    }
}

/// What a connection that stands at a place breaks.
fn guard_of(
    list: ListOf,
    names: &[&[u8]],
    seen: &[&[u8]],
    place: usize,
    one: &Connection,
) -> Checked<()>
    ensures { result ≡ fits.guard_of list (names_in names.now) (names_in seen.now) place (connection one.now) }
{
    let rule = rule_of(list);
    match one {
        Connection::Value(e) => {
            named_once(rule, names, seen, place_of(e), named_by(names, place, one))
        }
        Connection::Named(at, name) => named_once(rule, names, seen, *at, Some(name.text.bytes())),
        Connection::Given { at, name, .. } => {
            named_once(rule, names, seen, *at, Some(name.text.bytes()))
        }
        Connection::All(at) => match list {
            ListOf::Ports => Checked::Good(()),
            ListOf::Parameters => Checked::Broken(Fault { at: *at, rule }),
        },
    }
}

/// Puts a name, where there is one, before those that are seen.
fn note<'a>(name: Option<&'a [u8]>, seen: &mut Vec<&'a [u8]>) -> Result<(), NoMemory>
    ensures { OnOk result (names_in seen.new.items ≡ connections.seen_with (option_map (λ n. n.now) name.entry) (names_in seen.old.items)) }
{
    match name {
        None => Ok(()),
        Some(name) => put_first(name, seen),
    }
}

/// What connections break, of which the first stands at a place, behind those of these names.
fn fit_from<'a>(
    list: ListOf,
    names: &[&'a [u8]],
    mut seen: Vec<&'a [u8]>,
    place: usize,
    all: &'a [Connection],
) -> Result<Checked<()>, Refusal>
    ensures ok { IfOk result (λ c. c ≡ fits.fits list (names_in names.now) (names_in seen.entry.items) place (map connection all.now)) }
    ensures err { IfErr result (λ e. e ≡ Memory) }
{
    match all {
        [] => Ok(Checked::Good(())),
        [one, rest @ ..] => {
            let guard = guard_of(list, names, seen.as_slice(), place, one);
            note(named_by(names, place, one), &mut seen)?;
            let Some(next) = place.checked_add(1) else {
                return Err(Refusal::Memory);
            };
            let more = fit_from(list, names, seen, next, rest)?;
            Ok(and_guard(guard, more))
        }
    }
}

/// E8: a connection of an instance names no port, names one twice, or there are too many.
#[tactic(auto, using(crate::proofs::FitLaws::ports_fit))]
pub fn connections_fit(alloc: Global, names: &[&[u8]], all: &[Connection]) -> Result<(), Refusal>
    ensures { Gives result (connections.connections_fit (names_in names.now) [] 0 (map connection all.now)) }
{
    let fits = fit_from(ListOf::Ports, names, Vec::new(alloc), 0, all)?;
    answer(fits)
}

/// E10: a value for a parameter names none, names one twice, or there are too many.
#[tactic(auto, using(crate::proofs::FitLaws::parameters_fit))]
pub fn values_name(alloc: Global, names: &[&[u8]], all: &[Connection]) -> Result<(), Refusal>
    ensures { Gives result (items.values_name (names_in names.now) [] 0 (map connection all.now)) }
{
    let fits = fit_from(ListOf::Parameters, names, Vec::new(alloc), 0, all)?;
    answer(fits)
}
