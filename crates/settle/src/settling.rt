// Settling a half-decided sheet towards a value that is wanted.
ghost use Rattle.std.specs.Prelude.{◌≡◌, ◌+◌, ◌≤◌};
ghost use Rattle.chart.specs.Chart.{by_slot};
ghost use Rattle.sheet.specs.Limits.{largest_value};
ghost use Rattle.half.specs.Weights.{largest_sum};
ghost use Rattle.keeping.specs.Sets.{Apart, sets_of};
ghost use Rattle.settle.specs.Settled.{left_with, SettledAs, StepAs, AfterForcing};

use bound::bound;
use chart::Chart;
use forced::Forced;
use given::Given;
use graph::transposed;
use half::Half;
use keeping::keep_more;

// The decisions that are left, what they leave open and what they keep in weight.
#[derive(Clone, Copy)]
pub struct Settled {
    pub given: Given,
    pub open_options: u32,
    pub open_orderings: u64,
    pub lower: u32,
}

// One round: nothing here is worth what is wanted; no more follows; or more was kept than was forced, and there is another.
#[derive(Clone, Copy)]
pub enum Step {
    Over,
    Done(Settled),
    Again(Given),
}

// How much must be charged to bring the upper limit below what is wanted. Where any value will do, nothing need be charged.
fn enough(upper: u32, want: u32) -> u32
    requires { (want ≤ upper) × (upper ≤ largest_sum) }
    ensures { result ≤ largest_sum + 1 }
{
    if want == 0 { 0 } else { upper + 1 - want }
}

// Whether nothing is open any more.
fn is_decided(h: &Half) -> bool {
    h.open_options == 0 && h.open_orderings == 0
}

// The forced decisions, as sets.
fn sets_of(f: &Forced) -> Given
    ensures { result ≡ sets_of f.now }
{
    Given {
        kept: f.kept,
        dropped: f.dropped,
        kept_orderings: f.kept_orderings,
        dropped_orderings: f.dropped_orderings,
    }
}

// The decisions that are left, with what the forced ones leave open and keep in weight.
fn left_with(given: Given, h: &Half) -> Settled
    ensures { result ≡ left_with given h.now }
{
    Settled {
        given,
        open_options: h.open_options,
        open_orderings: h.open_orderings,
        lower: h.lower,
    }
}

// After forcing: an end where even the upper limit, less what is charged, is below what is wanted; otherwise items that may be kept besides.
fn after_forcing(chart: &Chart, f: &Forced, h: &Half, want: u32) -> Step
    requires { (want ≤ h.now.upper) × (h.now.upper ≤ largest_sum) }
    ensures { AfterForcing (by_slot chart.now) want f.now h.now result }
{
    let g = sets_of(f);
    let after = transposed(&h.known, chart.option_count);
    let e = enough(h.upper, want);
    let c = bound(chart, &h.known, &after, h.open_options, h.open_orderings, e);
    if h.upper < want + c.charged {
        return Step::Over;
    }
    let spare = h.upper - want - c.charged;
    match keep_more(chart, g, h, &after, &c.left, spare) {
        None => Step::Done(left_with(g, h)),
        Some(more) => Step::Again(more),
    }
}

// One round: forced decisions, and an end where even their upper limit is below what is wanted.
fn one_round(chart: &Chart, g: Given, want: u32) -> Step
    requires { Apart (by_slot chart.now) g }
    ensures { StepAs (by_slot chart.now) want g result }
{
    let f = forced::force(chart, g);
    if f.contradiction {
        return Step::Over;
    }
    let h = half::half_decided(chart, &f);
    if h.upper < want {
        return Step::Over;
    }
    if is_decided(&h) {
        return Step::Done(left_with(sets_of(&f), &h));
    }
    after_forcing(chart, &f, &h, want)
}

// Round after round, until nothing more is kept. None: nothing here is worth what is wanted.
pub fn settle(chart: &Chart, g: Given, want: u32) -> Option<Settled>
    requires { Apart (by_slot chart.now) g × (want ≤ largest_sum + 1 + largest_value) }
    ensures { SettledAs (by_slot chart.now) want g result }
{
    match one_round(chart, g, want) {
        Step::Over => None,
        Step::Done(settled) => Some(settled),
        Step::Again(more) => settle(chart, more, want),
    }
}
