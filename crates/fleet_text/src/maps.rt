//! What the program prints of a map.

ghost use Rattle.std.specs.Prelude.{◌≡◌, ◌++◌, IfOk, OnOk, Some, string_bytes};
ghost use Rattle.fleet_text.specs.MapReport.{IsMapReport, bridge_text, map_lines};

use fleet_bridge::first_bridge;
use fleet_grid::Grid;
use std::alloc::{AllocError, Allocator};
use std::fmt::{self, Write};

/// The ends of a map's first bridge, where it has one.
#[derive(Clone, Copy)]
struct BridgeText(Option<(u32, u32)>);

impl fmt::Display for BridgeText {
    ghost output = { λ t. Some (bridge_text t.0) };

    fn fmt<W: fmt::Write>(&self, f: &mut fmt::Formatter<W>) -> fmt::Result {
        match self.0 {
            Some((lower, upper)) => write!(f, "bridge {lower} {upper}"),
            None => write!(f, "bridgeless"),
        }
    }
}

/// What is printed about a map: its sides, the numbers of its floor cells and edges, and its first bridge.
#[derive(Clone, Copy)]
struct MapLines {
    height: u32,
    width: u32,
    floor: u32,
    edges: u32,
    bridge: Option<(u32, u32)>,
}

fn write_map<A: Allocator + Copy>(out: &mut String<A>, lines: MapLines) -> Result<(), AllocError>
    ensures { OnOk result (string_bytes out.new ≡ string_bytes out.old ++ map_lines lines.height lines.width lines.floor lines.edges lines.bridge) }
{
    let MapLines {
        height,
        width,
        floor,
        edges,
        bridge,
    } = lines;
    let bridge = BridgeText(bridge);
    write!(out, "size {height} {width}\n")?;
    write!(out, "floor {floor}\n")?;
    write!(out, "edges {edges}\n")?;
    write!(out, "{bridge}\n")
}

/// What the program prints of a map.
pub fn map_report<A: Allocator + Copy>(alloc: A, grid: &Grid<A>) -> Result<String<A>, AllocError>
    ensures { IfOk result (λ text. IsMapReport grid.now (string_bytes text)) }
{
    let lines = MapLines {
        height: grid.height(),
        width: grid.width(),
        floor: grid.floor_count(),
        edges: grid.edge_count(),
        bridge: first_bridge(alloc, grid)?,
    };
    let mut text = String::new(alloc);
    write_map(&mut text, lines)?;
    Ok(text)
}
