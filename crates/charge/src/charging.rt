// One charge: the least that a member's consequences hold, taken from the consequences of every member.
ghost use Rattle.std.specs.Prelude.{◌≤◌, length};
ghost use Rattle.links.specs.Links.{AllNamed};
ghost use Rattle.residual.specs.TakenAll.{Measured};
ghost use Rattle.charge.specs.Charges.{ChargedAs};

use chart::Chart;
use links::{all_named, closed};
use residual::{Left, held_by, take_all};

// What the members hold, and the least of it.
#[derive(Clone, Copy)]
pub struct Measure {
    pub least: u32,
    pub was: [u32; 64],
}

pub fn measure_all(chart: &Chart, left: &Left, chain: &[u8]) -> Measure
    requires { AllNamed chain.now (length chain.now) chart.now.option_count chart.now.ordering_count × (length chain.now ≤ 64) }
    ensures { Measured chart.now.firsts chart.now.seconds chart.now.option_count chart.now.ordering_count left.now.options left.now.orderings chain.now (length chain.now) result.least result.was × (result.least ≤ 4259775) }
{
    let mut was: [u32; 64] = [0; 64];
    // No item holds more: an option and 64 orderings of the greatest weight.
    let mut least: u32 = 65 * 65535;
    for (p, x) in chain.iter().enumerate() {
        was[p] = held_by(chart, left, *x);
        least = least.min(was[p]);
    }
    Measure { least, was }
}

// The chain is checked again, and only then is anything taken: whoever found it need promise nothing. What is charged comes back.
pub fn charge(chart: &Chart, known: &[u32; 32], chain: &[u8], left: &mut Left) -> u32
    ensures { ChargedAs known.now chart.now.firsts chart.now.seconds chart.now.option_count chart.now.ordering_count chain.now (length chain.now) result left.old.options left.old.orderings left.new.options left.new.orderings }
{
    if chain.is_empty() || chain.len() > 64 {
        return 0;
    }
    if !all_named(chain, chart.option_count, chart.ordering_count) {
        return 0;
    }
    let closes = closed(chart, known, chain);
    if !closes {
        return 0;
    }
    let Measure { least, was } = measure_all(chart, left, chain);
    take_all(
        &chart.firsts,
        &chart.seconds,
        chart.option_count,
        chart.ordering_count,
        &mut left.options,
        &mut left.orderings,
        chain,
        chain.len(),
        least,
        was,
    );
    least
}
