// Which open item is taken up next.
ghost use Rattle.picks.specs.Picked.{Picked};

use crate::greatest::greatest;
use crate::score::Counts;
use chart::Chart;

// For the search of the value: open options first, by what hangs on them, then open orderings.
pub fn pick(
    chart: &Chart,
    back: &[u32; 32],
    open_options: u32,
    open_orderings: u64,
) -> Option<usize>
    ensures { Picked open_options open_orderings chart.now.option_count chart.now.ordering_count result }
{
    let counts = Counts::new(chart, open_orderings);
    let option = greatest(u64::from(open_options), chart.option_count, |i| {
        counts.option_score(chart.rows[i], back[i], open_options)
    });
    if option.is_some() {
        return option;
    }
    let ordering = greatest(open_orderings, chart.ordering_count, |u| {
        counts.ordering_score(chart, back, u)
    })?;
    Some(32 + ordering)
}

// For the dive: the open item that holds most, options before orderings where they hold the same.
pub fn heaviest(
    chart: &Chart,
    held: &[u32; 32],
    left_orderings: &[u32; 64],
    open_options: u32,
    open_orderings: u64,
) -> Option<usize>
    ensures { Picked open_options open_orderings chart.now.option_count chart.now.ordering_count result }
{
    let option = greatest(u64::from(open_options), chart.option_count, |i| held[i]);
    let ordering = greatest(open_orderings, chart.ordering_count, |u| left_orderings[u]);
    match (option, ordering) {
        (Some(i), Some(u)) if held[i] < left_orderings[u] => Some(32 + u),
        (None, Some(u)) => Some(32 + u),
        _ => option,
    }
}
