// Both tables, as a call that only reads them has them: each with its header.
ghost use Rattle.std.specs.Prelude.{◌≤◌, ◌≡◌, length};
ghost use Rattle.model.specs.Layout.{current, sample_header, octant_header};
ghost use Rattle.words.specs.Rows.{octant_limit, sample_budget};

use crate::layout::{octant_limit, sample_budget};

// They go by reference: a query then takes some 2 % fewer instructions than with two slices; by value it takes as many.
#[derive(Clone, Copy)]
pub struct Tables<'a> {
    pub samples: &'a [u32],
    pub octants: &'a [u32],
    ghost samples_headed: { sample_header current ≤ length samples.now },
    ghost octants_headed: { octant_header current ≤ length octants.now },
}

impl<'a> Tables<'a> {
    // The rows below which an octant may be entered.
    pub fn octant_limit(&self) -> u32
        ensures { result ≡ octant_limit current self.now.octants.now }
    {
        octant_limit(self.octants)
    }

    // The samples that are there to be read.
    pub fn sample_budget(&self) -> u32
        ensures is { result ≡ sample_budget current self.now.samples.now }
        ensures bounded { result ≤ 4096 }
    {
        sample_budget(self.samples)
    }
}
