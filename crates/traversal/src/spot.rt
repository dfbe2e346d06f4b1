// Where a search stands, and its ways on. What an octant's channels add to its closest d² is handed down: the closest child adds as much, and
// each of its siblings adds what the far halves do in some channels.
ghost use Rattle.std.specs.Prelude.{◌<◌, ◌≡◌};
ghost use Rattle.colour.specs.Octant.{root_cube, Within};
ghost use Rattle.traversal.specs.Nearby.{far_of};
ghost use Rattle.traversal.specs.Spot.{spot_at, fork_of, turn_spot, Stood, Forked};

use crate::nearby::{Squares, far_of, turned};
use colour::nearby::closest_child;
use colour::octant::{Parent, child, root};
use colour::{Cube, Probe};

// An octant's cube, and what each of its channels adds to its closest d². (Its row goes beside it: in here it would be copied more often.)
#[derive(Clone, Copy)]
pub struct Spot {
    pub cube: Cube,
    pub near: Squares,
}

// The side of an octant's children, and the closest of them.
#[derive(Clone, Copy)]
pub struct Fork {
    pub half: u32,
    pub first: u32,
}

// The root, which holds every probe.
#[tactic(auto, unfolding(crate::specs::Spot::spot_at), using(crate::proofs::Laws::Nearby::root_near))]
pub fn root_spot(p: Probe) -> Spot
    ensures { result ≡ spot_at p root_cube }
{
    Spot {
        cube: root(),
        near: Squares::all(0),
    }
}

// At an octant of side over 1: its children's side, and the closest child. The side is halved: no table is read.
#[tactic(auto, unfolding(colour::specs::Octant::depths, crate::specs::Spot::fork_of), using(colour::proofs::Laws::Cubes::side_half))]
pub fn fork_of(p: Probe, cube: Cube) -> Fork
    requires within { Within cube }
    requires depth_bound { cube.depth < 16 }
    ensures { result ≡ fork_of p cube }
{
    let half = cube.side / 2;
    Fork {
        half,
        first: closest_child(p.centre, Parent { cube, half }),
    }
}

// A split octant that a search goes through: what distances are measured from, where the search stands, and its ways on.
#[derive(Clone, Copy)]
pub struct Crossing {
    pub probe: Probe,
    pub spot: Spot,
    pub fork: Fork,
    ghost forked: { Forked probe spot fork },
}

impl Crossing {
    // At an octant of side over 1.
    pub fn new(p: Probe, spot: Spot) -> Crossing
        requires stood { Stood p spot }
        requires deep { spot.cube.depth < 16 }
        ensures probe { result.probe ≡ p }
        ensures spot { result.spot ≡ spot }
    {
        Crossing {
            probe: p,
            spot,
            fork: fork_of(p, spot.cube),
        }
    }

    // The octant, with its children's side.
    #[tactic(auto, using(crate::proofs::Laws::Search::Spots::fork_half))]
    pub fn parent(self) -> Parent
        ensures cube { result.cube ≡ self.spot.cube }
        ensures half { result.half ≡ self.fork.half }
    {
        Parent {
            cube: self.spot.cube,
            half: self.fork.half,
        }
    }

    // What its far halves add.
    pub fn far(self) -> Squares
        ensures { result ≡ far_of self.probe self.fork.half self.spot.cube.low }
    {
        far_of(self.probe, self.parent())
    }

    // The closest child: it adds what the octant does.
    #[tactic(auto, using(crate::proofs::Laws::Search::Spots::closest_near, crate::proofs::Laws::Search::Spots::kid_first, crate::proofs::Laws::Search::Spots::spot_is))]
    pub fn closest(self) -> Spot
        ensures { result ≡ turn_spot self.probe self.spot 0 }
    {
        let near = self.spot.near;
        Spot {
            cube: child(self.parent(), self.fork.first),
            near,
        }
    }

    // What the sibling of turn m adds, which lies in the far halves of the channels of the bits of m. (Its cube is worked out only if it is entered.)
    #[tactic(auto, using(crate::proofs::Laws::Search::Spots::turned_near))]
    pub fn sibling_near(self, far: Squares, m: u32) -> Squares
        requires { far ≡ far_of self.probe self.fork.half self.spot.cube.low }
        ensures { result ≡ (turn_spot self.probe self.spot m).near }
    {
        turned(self.spot.near, far, m)
    }

    // The sibling of turn m, by what it adds.
    #[tactic(auto, using(crate::proofs::Laws::Search::Spots::kid_turn, crate::proofs::Laws::Search::Spots::spot_is))]
    pub fn sibling(self, near: Squares, m: u32) -> Spot
        requires { near ≡ (turn_spot self.probe self.spot m).near }
        ensures { result ≡ turn_spot self.probe self.spot m }
    {
        let k = self.fork.first ^ m;
        Spot {
            cube: child(self.parent(), k),
            near,
        }
    }
}
