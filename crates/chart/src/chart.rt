// The chart of a sheet.
ghost use Rattle.graph.specs.Graph.{EndsAreSlots, WithOrderings};
ghost use Rattle.chart.specs.Arrays.{HasWeights, OfSomeSheet};

use graph::put_orderings;

// A sheet's counts, and by slot what the catalogue and the orderings say and what all weighs: row i holds the options that come after
// option i, and ordering u asks for option firsts[u] before option seconds[u]. The arrays stand side by side, as the record has them and as
// `EndsAreSlots` and `ShowLines` speak of them.
#[derive(Clone, Copy)]
pub struct Chart {
    pub option_count: usize,
    pub ordering_count: usize,
    pub rows: [u32; 32],
    pub firsts: [u8; 64],
    pub seconds: [u8; 64],
    pub weights: [u16; 32],
    pub ordering_weights: [u16; 64],
    pub ghost ends: { EndsAreSlots option_count ordering_count firsts seconds },
    pub ghost has_weights: { HasWeights option_count ordering_count weights ordering_weights },
    pub ghost of_a_sheet: { ∥ OfSomeSheet option_count ordering_count firsts seconds rows weights ordering_weights ∥₁ },
}

impl Chart {
    // A table with the kept orderings in it.
    pub fn with_orderings(&self, table: [u32; 32], kept_orderings: u64) -> [u32; 32]
        ensures { WithOrderings table kept_orderings self.now.firsts self.now.seconds self.now.ordering_count result }
    {
        put_orderings(
            table,
            kept_orderings,
            &self.firsts,
            &self.seconds,
            self.option_count,
            self.ordering_count,
        )
    }
}
