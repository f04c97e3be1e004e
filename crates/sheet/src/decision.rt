// A list of decisions about a sheet's options and orderings.
ghost use Rattle.std.specs.Prelude.{◌≡◌};
ghost use Rattle.sheet.specs.Decisions.{all_open};

#[derive(Clone, Copy, Debug, PartialEq, Eq)]
pub enum Decision {
    Open,
    Kept,
    Dropped,
}

// One entry for each slot, by the order of the F lines and of the U lines.
#[derive(Clone, Copy, Debug, PartialEq, Eq)]
pub struct Decisions {
    pub options: [Decision; 32],
    pub orderings: [Decision; 64],
}

impl Decisions {
    // The list in which nothing is decided.
    pub fn open() -> Decisions
        ensures { result ≡ all_open }
    {
        Decisions {
            options: [Decision::Open; 32],
            orderings: [Decision::Open; 64],
        }
    }
}
