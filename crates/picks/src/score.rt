// How much hangs on an open item: what lies before it and after it. These numbers only order the items; sums that would not fit go round.
ghost use Rattle.std.specs.Prelude.{◌<◌, ◌≤◌, length};

use chains::end_at;
use chart::Chart;
use rows::{Ones, Slots};

// How many open orderings begin, and how many end, at each option.
#[derive(Drop)]
pub struct Counts {
    starts: [u32; 32],
    stops: [u32; 32],
}

// How many open orderings have one of their ends at each option.
fn counted(ends: &[u8; 64], open_orderings: u64, m: usize) -> [u32; 32]
    requires { m ≤ 64 }
{
    let mut counts: [u32; 32] = [0; 32];
    for u in 0..m {
        if open_orderings.get(u) {
            let i = end_at(ends, u);
            counts[i] = counts[i].wrapping_add(1);
        }
    }
    counts
}

// What lies on one side: the open options of the row, and the orderings counted at its options.
fn beside(row: u32, open_options: u32, counts: &[u32; 32]) -> u32 {
    let mut all = (row & open_options).count_ones();
    for i in Ones(row) {
        all = all.wrapping_add(counts[i]);
    }
    all
}

impl Counts {
    pub(crate) fn new(chart: &Chart, open_orderings: u64) -> Counts {
        Counts {
            starts: counted(&chart.firsts, open_orderings, chart.ordering_count),
            stops: counted(&chart.seconds, open_orderings, chart.ordering_count),
        }
    }

    // An option counts by its clashes three times over, and by the smaller of its two sides.
    pub(crate) fn option_score(&self, out: u32, into: u32, open_options: u32) -> u32 {
        let after = beside(out, open_options, &self.starts);
        let before = beside(into, open_options, &self.stops);
        let clashes = (out & into & open_options).count_ones();
        after.min(before).wrapping_add(3 * clashes)
    }

    // Ordering u counts by the smaller of what follows its end and what leads to its beginning, both ends included.
    pub(crate) fn ordering_score(&self, chart: &Chart, back: &[u32; 32], u: usize) -> u32
        requires { u < 64 }
    {
        let a = end_at(&chart.firsts, u);
        let b = end_at(&chart.seconds, u);
        let follows = beside(chart.rows[b], 0, &self.starts);
        let leads = beside(back[a], 0, &self.stops);
        follows
            .wrapping_add(self.starts[b])
            .min(leads.wrapping_add(self.stops[a]))
    }
}
