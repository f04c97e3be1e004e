// The whole answer about a half-decided sheet.
ghost use Rattle.std.specs.Prelude.{◌≡◌, ◌<◌, ◌≤◌, ℕ, get_or, length};
ghost use Rattle.chart.specs.Chart.{by_slot};
ghost use Rattle.half.specs.Half.{OpenFits};
ghost use Rattle.cells.specs.Cells.{no_limit, option_limit_in, ordering_limit_in};
ghost use Rattle.given.specs.Filled.{filled};
ghost use Rattle.limits.specs.Limited.{nothing_but, LimitedBy};

use cells::{Limit, no_limit, option_limit, ordering_limit};
use chart::Chart;
use given::Given;
use half::Half;
use sheet::Decisions;

// The whole answer: forced decisions, and what the values lie between. Callers are shown a contradiction as a flag beside zeros.
#[derive(Clone, Copy)]
pub struct Limited {
    pub contradiction: bool,
    pub decisions: Decisions,
    pub lower: u32,
    pub upper: u32,
    pub options: [Limit; 32],
    pub orderings: [Limit; 64],
}

impl Limited {
    // Everything open and all limits zero: what stands beside a refusal, and beside a contradiction.
    pub(crate) fn nothing_but(contradiction: bool) -> Limited
        ensures { result ≡ nothing_but contradiction }
    {
        Limited {
            contradiction,
            decisions: Decisions::open(),
            lower: 0,
            upper: 0,
            options: [no_limit(); 32],
            orderings: [no_limit(); 64],
        }
    }
}

// The limits of the first n of N items, and no limit past them.
fn each_limit<const N: usize, F: Fn(usize) -> Limit>(n: usize, limit: F) -> [Limit; N]
    requires within { n ≤ N }
    requires callable { (k : ℕ) → k < n → F.pre limit k }
    ensures size { length result ≡ N }
    ensures below { (k : ℕ) → k < n → F.post limit k (get_or result k no_limit) }
    ensures above { (k : ℕ) → n ≤ k → get_or result k no_limit ≡ no_limit }
{
    let mut limits = [no_limit(); N];
    for i in 0..n {
        limits[i] = limit(i);
    }
    limits
}

pub fn option_limits(chart: &Chart, h: &Half) -> [Limit; 32]
    requires { OpenFits (by_slot chart.now) h.now }
    ensures { result ≡ filled 32 chart.now.option_count (option_limit_in (by_slot chart.now) h.now) no_limit }
{
    each_limit(chart.option_count, |i| option_limit(chart, h, i))
}

pub fn ordering_limits(chart: &Chart, h: &Half) -> [Limit; 64]
    requires { OpenFits (by_slot chart.now) h.now }
    ensures { result ≡ filled 64 chart.now.ordering_count (ordering_limit_in (by_slot chart.now) h.now) no_limit }
{
    each_limit(chart.ordering_count, |u| ordering_limit(chart, h, u))
}

// Forced decisions and limits, from what is given.
pub fn limits_of(chart: &Chart, g: Given) -> Limited
    ensures { LimitedBy (by_slot chart.now) g result }
{
    let f = forced::force(chart, g);
    if f.contradiction {
        return Limited::nothing_but(true);
    }
    let n = chart.option_count;
    let m = chart.ordering_count;
    let h = half::half_decided(chart, &f);
    let options = given::all_decided(f.kept, f.dropped, n);
    let orderings = given::all_decided(f.kept_orderings, f.dropped_orderings, m);
    Limited {
        contradiction: false,
        decisions: Decisions { options, orderings },
        lower: h.lower,
        upper: h.upper,
        options: option_limits(chart, &h),
        orderings: ordering_limits(chart, &h),
    }
}
