// The distances that a routed row asks for.

ghost use Rattle.std.specs.Prelude.{◌≡◌, ◌≤◌, ◌+◌, ◌*◌, ◌++◌, All, IfOk, OnOk, filter_map, length};
ghost use Rattle.row_place.specs.Places.{IsPlacement};
ghost use Rattle.channel_route.specs.Routing.{IsLegal};
ghost use Rattle.channel_route.specs.Wiring.{AreWiring};
ghost use Rattle.row_compact.specs.Solution.{IsEntry};
ghost use Rattle.row_compact.specs.Allowed.{AreDistances, stretches_of};
ghost use Rattle.row_compact.specs.Entries.{has_trunk, is_contacted, is_wide, least_in};
ghost use Rattle.row_compact.specs.Entries.{two_entries, units_from, pair_entry, pairs_of, entries_of};

use crate::{
    CONTACT_SPACE, Distance, DistanceList, Distances, LINE_SPACE, MOST_LINES, STRETCH_SPACE,
};
use cell_num::{NetNo, NoMemory, Pins};
use channel_route::{Routing, Trunk};
use row_place::{Placement, UnitKind};
use std::alloc::Global;

fn has_trunk(trunks: &[Trunk], net: NetNo) -> bool
    ensures { result ≡ has_trunk trunks.now net }
{
    trunks.iter().any(|trunk| trunk.net.0 == net.0)
}

fn is_contacted(pins: &Pins, trunks: &[Trunk], net: NetNo) -> bool
    ensures { result ≡ is_contacted pins.now trunks.now net }
{
    pins.is_rail(net) || has_trunk(trunks, net)
}

// Whether in some row a contacted place is at the line.
fn is_wide(placement: &Placement, pins: &Pins, trunks: &[Trunk], line: u32) -> bool
    ensures { result ≡ is_wide pins.now trunks.now placement.now.nodes line }
{
    placement.nodes.as_slice().iter().any(|node| node.line == line
        && is_contacted(pins, trunks, node.net))
}

fn least_in(kind: UnitKind, is_wide: bool) -> u32
    ensures { result ≡ least_in kind is_wide }
{
    match (kind, is_wide) {
        (UnitKind::Column, true) => CONTACT_SPACE,
        _ => LINE_SPACE,
    }
}

fn add_unit(list: &mut DistanceList, unit: u32, before: u32, behind: u32) -> Result<(), NoMemory>
    requires { unit ≤ 64 }
    ensures { OnOk result (list.new ≡ list.old ++ two_entries unit before behind) }
{
    let gate = 2 * unit + 1;
    list.push(Distance {
        from: gate - 1,
        to: gate,
        least: before,
    })?;
    list.push(Distance {
        from: gate,
        to: gate + 1,
        least: behind,
    })
}

fn add_units(
    list: &mut DistanceList,
    placement: &Placement,
    pins: &Pins,
    trunks: &[Trunk],
) -> Result<(), NoMemory>
    requires { length placement.now.units ≤ 64 }
    ensures { OnOk result (list.new ≡ list.old ++ units_from
        (is_wide pins.now trunks.now placement.now.nodes) 0 placement.now.units) }
{
    let mut unit = 0;
    for kind in placement.units.as_slice() {
        let before = least_in(*kind, is_wide(placement, pins, trunks, 2 * unit));
        let behind = least_in(*kind, is_wide(placement, pins, trunks, 2 * unit + 2));
        add_unit(list, unit, before, behind)?;
        unit += 1;
    }
    Ok(())
}

// The distances from one trunk to those of its track to its right.
fn add_pairs(list: &mut DistanceList, left: &Trunk, trunks: &[Trunk]) -> Result<(), NoMemory>
    ensures { OnOk result (list.new ≡ list.old ++ filter_map (pair_entry left.now) trunks.now) }
{
    for right in trunks {
        if left.track == right.track && left.right < right.left {
            list.push(Distance {
                from: left.right,
                to: right.left,
                least: STRETCH_SPACE,
            })?;
        }
    }
    Ok(())
}

fn add_all_pairs(list: &mut DistanceList, trunks: &[Trunk]) -> Result<(), NoMemory>
    ensures { OnOk result (list.new ≡ list.old ++ pairs_of trunks.now) }
{
    for trunk in trunks {
        add_pairs(list, trunk, trunks)?;
    }
    Ok(())
}

/// The distances of a routed row: those of its units from left to right, then those of pairs of
/// trunks on one track.
pub fn entries(
    alloc: Global,
    placement: &Placement,
    pins: &Pins,
    trunks: &[Trunk],
) -> Result<DistanceList, NoMemory>
    requires { length placement.now.units ≤ 64 }
    ensures { IfOk result (λ list. list ≡ entries_of placement.now pins.now trunks.now) }
{
    let mut list = DistanceList::new(alloc);
    add_units(&mut list, placement, pins, trunks)?;
    add_all_pairs(&mut list, trunks)?;
    Ok(list)
}

fn lines_of_units(units: usize) -> u32
    requires { units ≤ 64 }
    ensures { result ≡ 2 * units + 1 }
{
    2 * units as u32 + 1
}

/// How many lines a placement has: two for each unit, and the last one.
pub fn lines_of(placement: &Placement) -> u32
    requires { IsPlacement placement.now }
    ensures lines { result ≡ 2 * length placement.now.units + 1 }
    ensures few { result ≤ MOST_LINES }
{
    lines_of_units(placement.units.len())
}

/// The distances that the lines of a placement keep under a wiring of these trunks. Their solutions are
/// exactly the positions that the row allows.
pub fn wiring_distances(
    alloc: Global,
    placement: &Placement,
    trunks: &[Trunk],
    pins: &Pins,
) -> Result<Distances, NoMemory>
    requires placement { IsPlacement placement.now }
    requires wiring { AreWiring placement.now pins.now trunks.now }
    ensures solutions { IfOk result (AreDistances placement.now pins.now (stretches_of trunks.now)) }
    ensures lines { IfOk result (λ d. d.lines ≡ 2 * length placement.now.units + 1) }
    ensures few { IfOk result (λ d. d.lines ≤ MOST_LINES) }
    ensures ascending { IfOk result (λ d. All (IsEntry d.lines) d.list) }
{
    let list = entries(alloc, placement, pins, trunks)?;
    let lines = lines_of(placement);
    Ok(Distances { lines, list })
}

/// The distances that the lines of a placement keep under a legal routing. Their solutions are exactly
/// the positions that the row allows.
pub fn distances(
    alloc: Global,
    placement: &Placement,
    routing: &Routing,
    pins: &Pins,
) -> Result<Distances, NoMemory>
    requires placement { IsPlacement placement.now }
    requires routing { IsLegal placement.now pins.now routing.now }
    ensures solutions { IfOk result (AreDistances placement.now pins.now (stretches_of routing.now.trunks)) }
    ensures lines { IfOk result (λ d. d.lines ≡ 2 * length placement.now.units + 1) }
    ensures few { IfOk result (λ d. d.lines ≤ MOST_LINES) }
    ensures ascending { IfOk result (λ d. All (IsEntry d.lines) d.list) }
{
    wiring_distances(alloc, placement, routing.trunks.as_slice(), pins)
}
