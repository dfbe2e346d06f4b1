// What a search keeps and has counted. It is lent down the recursion: passed by value, it would be copied at each call.
ghost use Rattle.std.specs.Prelude.{ℕ, ◌<◌, ◌≤◌, List, ◌≡◌};
ghost use Rattle.colour.specs.declared.Probe.{Probe};
ghost use Rattle.traversal.specs.Search.{search_entering, reaches, no_search};
ghost use Rattle.nearest.specs.Best.{closer, unfound, bests};
ghost use Rattle.nearest.specs.Steps.{search_as, search_in, search_after, search_ranked};

// What is found: how far it is, its sample row and its tag.
#[derive(Clone, Copy)]
pub struct Best {
    pub distance: u64,
    pub row: u32,
    pub tag: u32,
}

// The closest sample's d², its octant's row and its own; how many octants were entered, and how many samples visited. While the distance is the limit that
// the search began with, none was found, and the rows are 0. (No Option: it is compared at each octant, and what is no closer than the limit drops out by
// the same comparison.)
#[derive(Clone, Copy)]
pub struct Search {
    pub distance: u64,
    pub octant: u64,
    pub row: u64,
    pub entered: u64,
    pub visited: u64,
}

impl Search {
    // Before a search.
    #[tactic(auto, unfolding(crate::specs::Best::unfound, traversal::specs::Search::no_search))]
    pub fn new(limit: u64) -> Search
        ensures { result ≡ search_as (no_search (unfound limit)) }
    {
        Search {
            distance: limit,
            octant: 0,
            row: 0,
            entered: 0,
            visited: 0,
        }
    }

    // Whether what is so far, in the octant in a row, comes before the closest sample. (Most that are asked about are closer, and one test
    // tells; a comparison of pairs makes three.)
    #[tactic(auto, using(crate::proofs::Laws::Closer::closer_yes, crate::proofs::Laws::Closer::closer_no))]
    fn closer(&self, distance: u64, octant: u32) -> bool
        ensures { result ≡ closer (search_in self.now).kept distance octant }
    {
        distance < self.distance || (distance == self.distance && u64::from(octant) < self.octant)
    }

    // Whether the octant in a row, so far away, is entered: its row is below the limit and not 0, fewer octants than the limit were entered, and it can
    // hold something that comes before the closest sample.
    #[tactic(auto, unfolding(traversal::specs::Search::reaches), using(traversal::proofs::Laws::Tests::all_first, traversal::proofs::Laws::Tests::not_first))]
    pub fn reaches(&self, octant: u32, limit: u32, distance: u64) -> bool
        ensures { (ws : List ℕ) (p : Probe)
            → result ≡ reaches (bests ws p) limit octant distance (search_in self.now) }
    {
        if ((0 < octant) & (octant < limit)) & (self.entered < u64::from(limit)) {
            return self.closer(distance, octant);
        }
        false
    }

    // One octant more is entered.
    #[tactic(auto, unfolding(traversal::specs::Search::search_entering))]
    pub fn enter(&mut self)
        requires { self.old.entered < 4294967296 }
        ensures { self.new ≡ search_after search_entering self.old }
    {
        self.entered += 1;
    }

    // Samples of an octant were measured: so many, and this is their least rank.
    #[tactic(auto, unfolding(crate::specs::Best::taken, crate::specs::Best::taken_rank, crate::specs::Steps::search_ranked))]
    pub fn take(&mut self, octant: u32, rank: u64, seen: u32)
        requires { self.old.visited ≤ 4294967296 }
        ensures { self.new ≡ search_after (search_ranked octant rank seen) self.old }
    {
        self.visited += u64::from(seen);
        if self.closer(rank / 4096, octant) {
            self.distance = rank / 4096;
            self.octant = u64::from(octant);
            self.row = rank % 4096;
        }
    }
}
