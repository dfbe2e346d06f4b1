// The octant in a row: whether its samples are gone through one by one, how many of them at most, and its children.
ghost use Rattle.std.specs.Prelude.{◌-◌, ◌<◌, ◌≤◌, ◌≡◌, length};
ghost use Rattle.model.specs.Layout.{Count, current, octant_rows};
ghost use Rattle.words.specs.Rows.{settings_in, octant_field, sample_budget};
ghost use Rattle.traversal.specs.Own.{own_most, ends_at};
ghost use Rattle.traversal.specs.Children.{child_at};

use colour::octant::DEPTHS;
use words::layout::{octant_child, octant_count, settings as settings_of};
use words::tables::Tables;

// As many samples as the octant in a row counts, and as may still be visited.
#[tactic(auto, unfolding(crate::specs::Own::own_most))]
pub fn most(tables: &Tables<'_>, row: u32, visited: u32) -> u32
    requires row_bound { row < octant_rows current (length tables.now.octants.now) }
    requires visited_bound { visited ≤ sample_budget current tables.now.samples.now }
    ensures { result ≡ own_most tables.now.samples.now tables.now.octants.now row visited }
{
    let left = tables.sample_budget() - visited;
    octant_count(tables.octants, row).min(left)
}

// Whether an octant is gone through sample by sample: it is taken whole, or it is not split.
#[tactic(auto, unfolding(crate::specs::Own::ends_at))]
pub fn ends(tables: &Tables<'_>, whole: bool, depth: u32, row: u32) -> bool
    requires { (row < octant_rows current (length tables.now.octants.now)) × (depth ≤ 16) }
    ensures { result ≡ ends_at (16 - depth) whole (octant_field current tables.now.octants.now row Count)
        (settings_in current tables.now.samples.now).bucket }
{
    if whole {
        return true;
    }
    if depth == DEPTHS {
        return true;
    }
    let settings = settings_of(tables.samples);
    octant_count(tables.octants, row) <= settings.bucket
}

// The row of child k, or 0 for none, as the table's word is. (No Option: each use compares the row with two numbers at once.) Every traversal asks for
// children here and nowhere else: rows without child words would change this function, and no traversal.
#[tactic(auto, unfolding(crate::specs::Children::child_at))]
pub fn child_at(octants: &[u32], row: u32, k: u32) -> u32
    requires { (row < octant_rows current (length octants.now)) × (k < 8) }
    ensures { result ≡ child_at octants.now row k }
{
    octant_child(octants, row, k)
}
