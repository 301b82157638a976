// The regions of a side.
ghost use Rattle.std.specs.Prelude.{◌≡◌};
ghost use Rattle.sv_value.specs.Regions.{front_of, idle_of, updates_of};
ghost use Rattle.sv_flat.specs.Steps.{other};

use sv_value::{Region, Side};

/// The side across.
pub fn other_side(side: Side) -> Side
    ensures { result ≡ other side }
{
    match side {
        Side::Active => Side::Reactive,
        Side::Reactive => Side::Active,
    }
}

/// Where the ready processes of a side stand.
pub fn front_region(side: Side) -> Region
    ensures { result ≡ front_of side }
{
    match side {
        Side::Active => Region::Active,
        Side::Reactive => Region::Reactive,
    }
}

/// Where the processes of a side wait for their turn in the slot.
pub fn idle_region(side: Side) -> Region
    ensures { result ≡ idle_of side }
{
    match side {
        Side::Active => Region::Inactive,
        Side::Reactive => Region::ReInactive,
    }
}

/// Where the updates of a side stand.
pub fn updates_region(side: Side) -> Region
    ensures { result ≡ updates_of side }
{
    match side {
        Side::Active => Region::Nba,
        Side::Reactive => Region::ReNba,
    }
}
