// Whether nothing open lies on one side of an item. Items are numbers, as the theorem loose_told has them.
ghost use Rattle.std.specs.Prelude.{◌<◌};
ghost use Rattle.numbered.specs.Items.{Named};
ghost use Rattle.links.specs.Links.{OnlyIf};
ghost use Rattle.loose.specs.Loose.{ClosedEnds, FreeSide, LooseBy};

use chart::Chart;
use rows::Slots;

// By the row of what lies on that side of option o, where item x ends: no open option in it, no open ordering that sets out from it and,
// if x is an ordering itself, none from o. `ends` are the options from which open orderings set out on that side.
pub fn is_free(row: u32, opens: u32, ends: u32, o: u8, x: u8) -> bool
    requires { o < 32 }
    ensures { OnlyIf result (FreeSide row opens ends o x) }
{
    row & (opens | ends) == 0 && (x < 32 || !ends.get(usize::from(o)))
}

// An option stands by itself; an ordering only if both its options are decided.
pub fn has_closed_ends(opens: u32, first: u8, second: u8, x: u8) -> bool
    requires { (first < 32) × (second < 32) }
    ensures { OnlyIf result (ClosedEnds opens first second x) }
{
    x < 32 || !(opens.get(usize::from(first)) || opens.get(usize::from(second)))
}

// Item x is loose, if it is open. `after` is `known` transposed; `begins` and `ends` are where open orderings begin and end.
pub fn is_loose(
    chart: &Chart,
    known: &[u32; 32],
    after: &[u32; 32],
    opens: u32,
    begins: u32,
    ends: u32,
    x: u8,
) -> bool
    requires { Named chart.now.option_count chart.now.ordering_count x }
    ensures { OnlyIf result (LooseBy known.now after.now chart.now.firsts chart.now.seconds chart.now.option_count opens begins ends x) }
{
    let first = links::option_at(&chart.firsts, chart.option_count, chart.ordering_count, x);
    let second = links::option_at(&chart.seconds, chart.option_count, chart.ordering_count, x);
    has_closed_ends(opens, first, second, x)
        && (is_free(known[usize::from(second)], opens, begins, second, x)
            || is_free(after[usize::from(first)], opens, ends, first, x))
}
