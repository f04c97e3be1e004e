// A closed chain of open items, found breadth first.
ghost use Rattle.std.specs.Prelude.{◌≡◌, ◌+◌, ◌≤◌, ◌<◌, take};

use crate::level::{Front, Level, goal_of, levels};
use crate::member::end_of;
use crate::walk::walk_back;
use chart::Chart;
use rows::Slots;

// What the finder goes by: what is charged so far, the open options whose consequences still hold something, how much they hold, and between
// which options an open ordering still holds something.
#[derive(Clone, Copy)]
pub struct Hints {
    pub charged: u32,
    pub positive: u32,
    pub held: [u32; 32],
    pub soft: [u32; 32],
}

// Items are numbered from 0 for options and from 32 for orderings.
#[derive(Clone, Copy)]
pub struct Chain {
    items: [u8; 64],
    len: usize,
    ghost few: { len ≤ 64 },
}

impl Chain {
    pub(crate) fn new(items: [u8; 64], len: usize) -> Chain
        requires { len ≤ 64 }
        ensures { (result.items ≡ items) × (result.len ≡ len) }
    {
        Chain { items, len }
    }

    pub fn items(&self) -> &[u8]
        ensures { result.now ≡ take self.now.len self.now.items }
    {
        &self.items[..self.len]
    }
}

// What the walk starts from: an ordering from its end, which other orderings may follow at once; an option from itself.
fn start(chart: &Chart, known: &[u32; 32], item: usize) -> Front
    requires { item < 32 + chart.now.ordering_count }
{
    let beginning = end_of(&chart.firsts, chart.ordering_count, item);
    let end = end_of(&chart.seconds, chart.ordering_count, item);
    let meets = item >= 32;
    let reach = known[end];
    let own = 0u32.put_if(end, meets);
    Front {
        reach,
        from: reach | own,
        met_options: 0u32.put_if(beginning, !meets),
        met_seconds: own,
    }
}

// A shortest closed chain through item x, of at most `most` open items that each still hold something. A hint: nothing is promised of its links.
pub fn find(
    chart: &Chart,
    known: &[u32; 32],
    after: &[u32; 32],
    hints: &Hints,
    left_orderings: &[u32; 64],
    x: usize,
    most: usize,
) -> Option<Chain>
    requires { most ≤ 60 }
{
    if x >= 32 + chart.ordering_count {
        return None;
    }
    let front = start(chart, known, x);
    let first = front.level(hints);
    // most often no open item follows at all, and the page need not be laid out
    if first.is_empty() {
        return None;
    }
    let mut page = [Level {
        options: 0,
        seconds: 0,
        from: 0,
    }; 64];
    let goal = goal_of(chart, after, x);
    let last = levels(known, hints, front, first, goal, most, &mut page)?;
    walk_back(chart, after, left_orderings, hints, &page, x, last)
}
