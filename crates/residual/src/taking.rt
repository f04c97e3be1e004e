// What an item's consequences hold of what is left, and taking from it. Items are numbers, as take_all has them: see docs/DECISIONS.md.
ghost use Rattle.std.specs.Prelude.{◌≡◌, ◌≤◌, ◌<◌, length};
ghost use Rattle.chart.specs.Chart.{by_slot};
ghost use Rattle.graph.specs.Graph.{EndsAreSlots};
ghost use Rattle.numbered.specs.Items.{Named};
ghost use Rattle.residual.specs.Left.{rest, held_of};
ghost use Rattle.residual.specs.Taken.{LeftIn, TookAt, TookTo, Took, held_in, touches_in};

use crate::starting::Left;
use chart::Chart;

// Where the orderings of a sheet begin and end, and its counts.
#[derive(Clone, Copy)]
pub struct Ends<'a> {
    pub first: &'a [u8],
    pub second: &'a [u8],
    pub option_count: usize,
    pub ordering_count: usize,
    pub ghost are_slots: { EndsAreSlots option_count ordering_count first.now second.now },
}

impl<'a> Ends<'a> {
    // Whether ordering u touches option x.
    pub fn touches(&self, u: usize, x: u8) -> bool
        requires { u < self.now.ordering_count }
        ensures { result ≡ touches_in self.now.first.now self.now.second.now x u }
    {
        self.first[u] == x || self.second[u] == x
    }

    // What item x's consequences hold together: an ordering itself, an option and its orderings. A byte goes to an index by `as`: with `From`
    // the answers of `take` did not close.
    pub fn held_by(&self, options: &[u32], orderings: &[u32], x: u8) -> u32
        requires { Named self.now.option_count self.now.ordering_count x × LeftIn self.now.option_count self.now.ordering_count options.now orderings.now }
        ensures { (result ≡ held_in self.now.option_count self.now.ordering_count self.now.first.now self.now.second.now options.now orderings.now x) × (result ≤ 4259775) }
    {
        if x >= 32 {
            return orderings[(x - 32) as usize];
        }
        let mut sum: u32 = options[x as usize];
        for u in 0..self.ordering_count {
            if self.touches(u, x) {
                sum += orderings[u];
            }
        }
        sum
    }

    // As much as is needed and is there is taken from each ordering that touches option x; what is still needed comes back.
    pub fn take_orderings(&self, orderings: &mut [u32], x: u8, need: u32) -> u32
        requires { self.now.ordering_count ≤ length orderings.old }
        ensures { TookTo orderings.old self.now.first.now self.now.second.now x need self.now.ordering_count orderings.new result }
    {
        let mut rest: u32 = need;
        for u in 0..self.ordering_count {
            if self.touches(u, x) {
                rest = take_at(orderings, u, rest);
            }
        }
        rest
    }

    // So much is taken from item x's consequences: an option's own weight first, then its orderings.
    pub fn take(&self, options: &mut [u32], orderings: &mut [u32], x: u8, need: u32)
        requires { Named self.now.option_count self.now.ordering_count x × LeftIn self.now.option_count self.now.ordering_count options.old orderings.old × (need ≤ held_in self.now.option_count self.now.ordering_count self.now.first.now self.now.second.now options.old orderings.old x) }
        ensures { Took self.now.first.now self.now.second.now self.now.option_count self.now.ordering_count x need options.old orderings.old options.new orderings.new }
    {
        if x < 32 {
            let rest = take_at(options, x as usize, need);
            self.take_orderings(orderings, x, rest);
        } else {
            take_at(orderings, (x - 32) as usize, need);
        }
    }
}

// As much as is needed and is there is taken at slot i; what is still needed comes back.
pub fn take_at(left: &mut [u32], i: usize, need: u32) -> u32
    requires { i < length left.old }
    ensures { TookAt left.old i need left.new result }
{
    let taken = need.min(left[i]);
    left[i] -= taken;
    need - taken
}

// What the consequences of item x of a chart hold together.
#[inline]
pub fn held_by(chart: &Chart, left: &Left, x: u8) -> u32
    requires { Named chart.now.option_count chart.now.ordering_count x }
    ensures { (result ≡ held_of (by_slot chart.now) (rest left.now) x) × (result ≤ 4259775) }
{
    let ends = Ends {
        first: &chart.firsts,
        second: &chart.seconds,
        option_count: chart.option_count,
        ordering_count: chart.ordering_count,
    };
    ends.held_by(&left.options, &left.orderings, x)
}
