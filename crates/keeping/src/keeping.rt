// Open items that are kept beside the forced ones: without one of them less than what is wanted is left, or it is loose.
ghost use Rattle.std.specs.Prelude.{◌≤◌, ◌<◌, ℕ, true, IfSome};
ghost use Rattle.chart.specs.Chart.{by_slot};
ghost use Rattle.residual.specs.Left.{rest};
ghost use Rattle.numbered.specs.Items.{Named};
ghost use Rattle.links.specs.Links.{OnlyIf};
ghost use Rattle.keeping.specs.Keeping.{MayKeep, AddedTo, KeptMore};

use chart::Chart;
use given::Given;
use half::Half;
use loose::{ends_of, is_loose};
use residual::{Left, held_by};
use rows::Slots;

// The open options, those at which open orderings begin and end, and how much can be spared.
#[derive(Clone, Copy)]
pub struct Open {
    pub options: u32,
    pub begins: u32,
    pub ends: u32,
    pub spare: u32,
}

// Whether item x may be kept, if it is open.
#[inline]
fn may_keep(
    chart: &Chart,
    known: &[u32; 32],
    after: &[u32; 32],
    o: Open,
    left: &Left,
    x: u8,
) -> bool
    requires { Named chart.now.option_count chart.now.ordering_count x }
    ensures { OnlyIf result (MayKeep (by_slot chart.now) known.now after.now o.options o.begins o.ends (rest left.now) o.spare x) }
{
    let held = held_by(chart, left, x);
    o.spare < held || is_loose(chart, known, after, o.options, o.begins, o.ends, x)
}

// What is kept, and with it the open slots below n that may be.
fn keep_open<S: Slots, F: Fn(usize) -> bool>(kept: S, opens: S, n: usize, may: F) -> S
    requires within { n ≤ S.width }
    requires callable { (k : ℕ) → k < n → F.pre may k }
    ensures { AddedTo (S.bits kept) (S.bits result) (S.bits opens) n (λ k. F.post may k true) }
{
    let mut set = kept;
    for i in 0..n {
        if opens.get(i) && may(i) {
            set = set.put(i);
        }
    }
    set
}

// The decisions with every open item kept that may be; none where they are no more.
pub fn keep_more(
    chart: &Chart,
    g: Given,
    h: &Half,
    after: &[u32; 32],
    left: &Left,
    spare: u32,
) -> Option<Given>
    ensures { IfSome result (KeptMore (by_slot chart.now) h.now after.now (rest left.now) spare g) }
{
    let n = chart.option_count;
    let m = chart.ordering_count;
    let begins = ends_of(h.open_orderings, &chart.firsts, n, m);
    let ends = ends_of(h.open_orderings, &chart.seconds, n, m);
    let o = Open {
        options: h.open_options,
        begins,
        ends,
        spare,
    };
    // Items as bytes, by `as`: they are below 96, and try_from would bring a refusal that cannot come.
    let kept = keep_open(g.kept, h.open_options, n, |i| {
        may_keep(chart, &h.known, after, o, left, i as u8)
    });
    let kept_orderings = keep_open(g.kept_orderings, h.open_orderings, m, |u| {
        may_keep(chart, &h.known, after, o, left, (32 + u) as u8)
    });
    if kept == g.kept && kept_orderings == g.kept_orderings {
        return None;
    }
    Some(Given {
        kept,
        kept_orderings,
        ..g
    })
}
