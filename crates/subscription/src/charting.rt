// What is worked out once for a sheet: its catalogue's rows and its orderings by slot.
ghost use Rattle.std.specs.Prelude.{◌≡◌, true};
ghost use Rattle.chart.specs.Chart.{by_slot};
ghost use Rattle.sheet.specs.IsRecorded.{is_recorded};
ghost use Rattle.subscription.specs.Charted.{Charted};

use chart::Chart;
use sheet::Sheet;

// The chart of a record that an accepted sheet gives.
pub fn chart_of(s: &Sheet) -> Chart
    requires { is_recorded s.now ≡ true }
    ensures { Charted s.now (by_slot result) }
{
    let option_count = s.option_count;
    let ordering_count = s.ordering_count;
    let table = slots::slot_table(&s.numbers, option_count);
    let rows = catalogue::catalogue_rows(
        &s.letters,
        &s.befores,
        &s.afters,
        s.catalogue_lines,
        &table,
        option_count,
    );
    let firsts = slots::slots_of(&table, &s.firsts, ordering_count);
    let seconds = slots::slots_of(&table, &s.seconds, ordering_count);
    Chart {
        option_count,
        ordering_count,
        rows,
        firsts,
        seconds,
        weights: s.weights,
        ordering_weights: s.ordering_weights,
    }
}
