// Which connection belongs to a port (IEEE 1800-2017, 23.3.2).
ghost use Rattle.std.specs.Prelude.{◌≡◌, IfOk, map, option_map, slice_get};
ghost use Rattle.sv_tree.specs.UnitView.{connection};
ghost use Rattle.sv_names.specs.Connections as connections;
ghost use Rattle.sv_elab_unit.specs.Definitions.{names_in};
ghost use Rattle.sv_elab_connect.specs.Links as links;
ghost use Rattle.sv_elab_connect.specs.Links.{linked_in};

use crate::links::Linked;
use sv_names::same_bytes;
use sv_tree::Connection;
use sv_value::NoMemory;

/// The name that stands at a place, where there is one.
#[tactic(auto, using(crate::proofs::LinkLaws::name_there))]
fn name_at<'a>(names: &[&'a [u8]], place: usize) -> Option<&'a [u8]>
    ensures { option_map (λ n. n.now) result ≡ slice_get (names_in names.now) place }
{
    match names.get(place) {
        Some(name) => Some(*name),
        None => None,
    }
}

/// What a connection that stands at a place names, by its name or its place.
pub(crate) fn named_by<'a>(
    names: &[&'a [u8]],
    place: usize,
    one: &'a Connection,
) -> Option<&'a [u8]>
    ensures { option_map (λ n. n.now) result ≡ links.named_by (names_in names.now) place (connection one.now) }
{
    match one {
        Connection::Value(_) => name_at(names, place),
        Connection::Named(_, name) => Some(name.text.bytes()),
        Connection::Given { name, .. } => Some(name.text.bytes()),
        Connection::All(_) => None,
    }
}

/// Whether a connection that stands at a place is that of this name.
fn is_of(name: &[u8], names: &[&[u8]], place: usize, one: &Connection) -> bool
    ensures { result ≡ links.is_of name.now (links.named_by (names_in names.now) place (connection one.now)) }
{
    match named_by(names, place, one) {
        None => false,
        Some(other) => same_bytes(name, other),
    }
}

/// The first connection of this name; `place` is where the first of them stands in the whole list.
pub(crate) fn connection_to<'a>(
    name: &[u8],
    names: &[&[u8]],
    place: usize,
    all: &'a [Connection],
) -> Result<Option<&'a Connection>, NoMemory>
    ensures { IfOk result (λ c. option_map (λ x. connection x.now) c
        ≡ links.connection_to name.now (names_in names.now) place (map connection all.now)) }
{
    match all {
        [] => Ok(None),
        [one, rest @ ..] => {
            if is_of(name, names, place, one) {
                return Ok(Some(one));
            }
            match place.checked_add(1) {
                Some(next) => connection_to(name, names, next, rest),
                None => Err(NoMemory::Memory),
            }
        }
    }
}

/// The first `.*`.
pub(crate) fn star_of<'a>(all: &'a [Connection]) -> Option<Linked<'a>>
    ensures { option_map linked_in result ≡ connections.star_of (map connection all.now) }
{
    match all {
        [] => None,
        [one, rest @ ..] => match one {
            Connection::All(at) => Some(Linked::Same(*at, *at)),
            _ => star_of(rest),
        },
    }
}
