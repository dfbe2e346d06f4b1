// The side of an octant by its depth, and the cubes of the root and of an octant's children.
ghost use Rattle.std.specs.Prelude.{◌≡◌, suc, ◌<◌, ◌≤◌};
ghost use Rattle.colour.specs.Octant.{side_at, root_cube, child_cube, Within};

use crate::span::splits;
use crate::{Channels, Cube};

// The depth of an octant of side 1: so many depths lie below the root.
pub const DEPTHS: u32 = 16;

// The sides at depths 0 to 16.
const SIDES: [u32; 17] = [
    65536, 32768, 16384, 8192, 4096, 2048, 1024, 512, 256, 128, 64, 32, 16, 8, 4, 2, 1,
];

// The side at a depth. Every side is had from here.
pub fn side(depth: u32) -> u32
    requires { depth ≤ 16 }
    ensures is { result ≡ side_at depth }
    ensures bounded { (1 ≤ result) × (result ≤ 65536) }
{
    SIDES[depth as usize]
}

// The root octant: all colours.
#[tactic(auto, unfolding(crate::specs::Colour::black, crate::specs::Colour::colour_by, crate::specs::Octant::root_cube), using(crate::proofs::Laws::Cubes::is_within, crate::proofs::Laws::Cubes::root_within))]
pub fn root() -> Cube
    ensures is { result ≡ root_cube }
    ensures within { Within result }
{
    Cube {
        low: Channels::all(0),
        depth: 0,
        side: side(0),
    }
}

// An octant of side over 1, with the side of its children, which is looked up once for all eight.
#[derive(Clone, Copy)]
pub struct Parent {
    pub cube: Cube,
    pub half: u32,
    ghost within: { Within cube },
    ghost deep: { cube.depth < 16 },
    ghost halved: { half ≡ side_at (suc cube.depth) },
}

// An octant that has children.
pub fn parent_of(cube: Cube) -> Parent
    requires within { Within cube }
    requires deep { cube.depth < 16 }
    ensures { result.cube ≡ cube }
{
    Parent {
        cube,
        half: side(cube.depth + 1),
    }
}

// Child k of a split octant.
pub fn child(parent: Parent, k: u32) -> Cube
    ensures is { result ≡ child_cube parent.cube k }
    ensures within { Within result }
{
    let splits = splits(parent);
    Cube {
        low: Channels {
            red: splits.red.child_code(k, 1),
            green: splits.green.child_code(k, 2),
            blue: splits.blue.child_code(k, 4),
        },
        depth: parent.cube.depth + 1,
        side: parent.half,
    }
}
