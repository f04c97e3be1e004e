// When one item is linked to another, by their numbers: option i is i, ordering u is 32 + u. They stay numbers: a chain is kept as bytes, and
// what is proved of chains (`numbered`, `take_all`) speaks of them so.
ghost use Rattle.std.specs.Prelude.{◌≡◌};
ghost use Rattle.numbered.specs.Items.{Named};
ghost use Rattle.links.specs.Links.{AreSlots, OptionAt, linked_in};

use chart::Chart;
use rows::Slots;

// The option at which item x begins or ends: an option itself, an ordering's own in `ends`.
#[tactic(auto, using(crate::specs::laws::Links::at_option, crate::specs::laws::Links::at_ordering))]
pub fn option_at(ends: &[u8], option_count: usize, ordering_count: usize, x: u8) -> u8
    requires { AreSlots option_count ordering_count ends.now × Named option_count ordering_count x }
    ensures { OptionAt ends.now option_count x result }
{
    if x < 32 { x } else { ends[usize::from(x - 32)] }
}

// Item x is linked to item y: where x ends is known before where y begins, or they are two orderings that meet.
#[tactic(auto, using(crate::specs::laws::Links::linked_known, crate::specs::laws::Links::linked_apart, crate::specs::laws::Links::linked_orderings))]
pub fn is_linked(chart: &Chart, known: &[u32; 32], x: u8, y: u8) -> bool
    requires { Named chart.now.option_count chart.now.ordering_count x × Named chart.now.option_count chart.now.ordering_count y }
    ensures { result ≡ linked_in chart.now.option_count chart.now.ordering_count known.now chart.now.firsts chart.now.seconds x y }
{
    let from = option_at(&chart.seconds, chart.option_count, chart.ordering_count, x);
    let to = option_at(&chart.firsts, chart.option_count, chart.ordering_count, y);
    known[usize::from(from)].get(usize::from(to)) || (x.min(y) >= 32 && from == to)
}
