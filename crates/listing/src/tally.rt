// What a pass has counted. It is lent down the recursion: a struct that goes down and comes back by value would be copied at each octant. (The listing is
// lent beside it. With a `&mut` to it in the tally each function would have to promise that the tally still holds that listing, and definitions, which make
// tallies, could make none without one.)
ghost use Rattle.std.specs.Prelude.{◌+◌, ◌≤◌, ◌<◌, ◌&&◌, ◌≡◌, leb, ltb};
ghost use Rattle.listing.specs.Pass.{measured_after, tally_entering, visiting, no_tally};
ghost use Rattle.listing.specs.Steps.{tally_of, tally_in};

// Tags listed, octants entered, samples measured, the least octant row that may be entered, and samples visited, measured or taken whole.
#[derive(Clone, Copy)]
pub struct Tally {
    pub listed: u32,
    pub entered: u32,
    pub measured: u32,
    pub next: u32,
    pub visited: u32,
}

// Samples that are visited are measured unless their octant is taken whole. (8192 is twice the most samples: the sum does not overflow.)
#[tactic(auto, unfolding(crate::specs::Pass::measured_after))]
fn measured_after(whole: bool, measured: u32, seen: u32) -> u32
    requires { measured + seen ≤ 8192 }
    ensures { result ≡ measured_after whole measured seen }
{
    if whole {
        return measured;
    }
    measured + seen
}

impl Tally {
    // Before a pass.
    #[tactic(auto, unfolding(crate::specs::Pass::no_tally))]
    pub fn new() -> Tally
        ensures { result ≡ tally_of 0 no_tally }
    {
        Tally {
            listed: 0,
            entered: 0,
            measured: 0,
            next: 0,
            visited: 0,
        }
    }

    // Whether the octant in a row may be entered: its row is past those entered before, and below the limit.
    pub fn may_enter(&self, row: u32, limit: u32) -> bool
        ensures { result ≡ (leb self.now.next row && ltb row limit) }
    {
        (self.next <= row) & (row < limit)
    }

    // The octant in a row is entered.
    #[tactic(auto, unfolding(crate::specs::Pass::tally_entering))]
    pub fn enter(&mut self, row: u32)
        requires { (self.old.entered ≤ row) × (row < 4294967295) }
        ensures { self.new ≡ tally_of self.old.listed (tally_entering row (tally_in self.old)) }
    {
        self.entered += 1;
        self.next = row + 1;
    }

    // An octant's own samples were visited, and tags listed up to a place.
    #[tactic(auto, unfolding(crate::specs::Pass::visiting))]
    pub fn count(&mut self, whole: bool, seen: u32, end: u32)
        requires { (self.old.measured ≤ self.old.visited) × (self.old.visited + seen ≤ 4096) }
        ensures { self.new ≡ tally_of end (visiting whole seen (tally_in self.old)) }
    {
        let visited = self.visited + seen;
        self.listed = end;
        self.measured = measured_after(whole, self.measured, seen);
        self.visited = visited;
    }
}
