// What a port is connected to (IEEE 1800-2017, 23.3.2).
ghost use Rattle.std.specs.Prelude.{◌≡◌, IfOk, map, option_map};
ghost use Rattle.sv_tree.specs.Items.{DesignElement as element};
ghost use Rattle.sv_tree.specs.UnitView.{connection};
ghost use Rattle.sv_names.specs.Connections as connections;
ghost use Rattle.sv_names.specs.Instances as instances;
ghost use Rattle.sv_elab_unit.specs.Definitions.{names_in};
ghost use Rattle.sv_elab_unit.specs.Ports.{port_in};
ghost use Rattle.sv_elab_connect.specs.Links as links;
ghost use Rattle.sv_elab_connect.specs.Links.{linked_in};

use crate::connections::{connection_to, star_of};
use sv_elab_expr::place_of;
use sv_elab_unit::PortInfo;
use sv_tree::{Connection, Expr};
use sv_value::{NoMemory, Place};

/// What a port is connected to.
#[derive(Clone, Copy)]
pub enum Linked<'a> {
    /// An expression, and where the connection stands.
    To(Place, &'a Expr),
    /// The object of the same name: `.name` or `.*`, with the place of the name.
    Same(Place, Place),
}

/// What a connection connects its port to; nothing where no expression stands between its brackets.
fn linked_by<'a>(one: &'a Connection) -> Option<Linked<'a>>
    ensures { option_map linked_in result ≡ links.linked_by (connection one.now) }
{
    match one {
        Connection::Value(e) => Some(Linked::To(place_of(e), e)),
        Connection::Named(at, name) => Some(Linked::Same(*at, name.at)),
        Connection::Given { at, value, .. } => match value {
            Some(e) => Some(Linked::To(*at, e)),
            None => None,
        },
        Connection::All(_) => None,
    }
}

/// What a port is connected to: by its place or name among the ports of these names, else by `.*`.
pub fn linked_port<'a>(
    names: &[&[u8]],
    all: &'a [Connection],
    port: &PortInfo,
) -> Result<Option<Linked<'a>>, NoMemory>
    ensures { (u : element) → names_in names.now ≡ instances.port_names u
        → IfOk result (λ l. option_map linked_in l ≡ connections.linked_port u (map connection all.now) (port_in port.now)) }
{
    match connection_to(port.name.text.bytes(), names, 0, all)? {
        Some(one) => Ok(linked_by(one)),
        None => Ok(star_of(all)),
    }
}
