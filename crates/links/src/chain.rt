// Whether a chain of item numbers names items of the sheet, and closes.
ghost use Rattle.std.specs.Prelude.{◌≤◌, ◌<◌, length, T};
ghost use Rattle.rules.specs.laws.search.Items.{closes};
ghost use Rattle.rows.specs.Sets.{cell};
ghost use Rattle.numbered.specs.Items.{Named, ends_only};
ghost use Rattle.links.specs.Links.{members, AllNamed, OnlyIf};

use crate::links::is_linked;
use chart::Chart;

// Whether a number names an item of the sheet.
fn names_item(x: u8, option_count: usize, ordering_count: usize) -> bool
    ensures { OnlyIf result (Named option_count ordering_count x) }
{
    let x = usize::from(x);
    if x < 32 {
        x < option_count
    } else {
        x - 32 < ordering_count
    }
}

// Whether all numbers name items of the sheet.
pub fn all_named(chain: &[u8], option_count: usize, ordering_count: usize) -> bool
    ensures { OnlyIf result (AllNamed chain.now (length chain.now) option_count ordering_count) }
{
    chain
        .iter()
        .all(|x| names_item(*x, option_count, ordering_count))
}

// Whether the items are each linked to the next, and the last to the first.
pub fn closed(chart: &Chart, known: &[u32; 32], chain: &[u8]) -> bool
    requires { AllNamed chain.now (length chain.now) chart.now.option_count chart.now.ordering_count × (0 < length chain.now) }
    ensures { OnlyIf result (T (closes (ends_only chart.now.option_count chart.now.ordering_count chart.now.firsts chart.now.seconds) (cell known.now) (members chain.now (length chain.now)))) }
{
    let last = chain.len() - 1;
    (0..last).all(|p| is_linked(chart, known, chain[p], chain[p + 1]))
        && is_linked(chart, known, chain[last], chain[0])
}
