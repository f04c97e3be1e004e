// What is found so far, what is wanted still, and what a leaf does to it.
ghost use Rattle.std.specs.Prelude.{◌≡◌, ◌+◌, ◌-◌, ◌≤◌};
ghost use Rattle.sheet.specs.Limits.{largest_value};
ghost use Rattle.half.specs.Weights.{largest_sum};
ghost use Rattle.so_far.specs.State.{wanted, taken, kept_in, nothing_found};

use given::Given;

// The items that a relaxation keeps.
#[derive(Clone, Copy, Debug, PartialEq, Eq)]
pub struct Kept {
    pub options: u32,
    pub orderings: u64,
}

// The relaxation found, if any, and the goal: what another must be worth to count.
#[derive(Clone, Copy, Debug, PartialEq, Eq)]
pub struct SoFar {
    pub goal: u32,
    pub find: Option<Kept>,
}

impl SoFar {
    // Nothing is found, and whatever is worth the floor or more counts: from 0 on, a relaxation of value 0 is better than none.
    pub fn nothing_found(floor: u32) -> SoFar
        ensures { result ≡ nothing_found floor }
    {
        SoFar {
            goal: floor,
            find: None,
        }
    }

    // What a relaxation must be worth to be wanted. The tolerance counts only once something is found: otherwise a generous one would find nothing.
    #[tactic(auto, unfolding(crate::specs::State::wanted))]
    pub fn wanted(&self, tolerance: u32) -> u32
        requires { (self.now.goal ≤ largest_sum + 1) × (tolerance ≤ largest_value) }
        ensures { result ≡ wanted self.now tolerance }
    {
        match self.find {
            None => self.goal,
            Some(_) => self.goal + tolerance,
        }
    }

    // A relaxation with nothing open, worth `value`: it is taken if it reaches the goal, and a tie never replaces what was found first.
    #[tactic(auto, unfolding(crate::specs::State::taken))]
    pub fn take(&mut self, g: Given, value: u32)
        requires { value ≤ largest_sum }
        ensures { self.new ≡ taken self.old g value }
    {
        if self.goal <= value {
            *self = SoFar {
                goal: value + 1,
                find: Some(Kept {
                    options: g.kept,
                    orderings: g.kept_orderings,
                }),
            };
        }
    }

    // The items that the find keeps; with no find all is dropped.
    pub fn kept(&self) -> Kept
        ensures { result ≡ kept_in self.now }
    {
        self.find.unwrap_or(Kept {
            options: 0,
            orderings: 0,
        })
    }

    // What the find is worth: one less than the goal that it left; dropping all is worth nothing.
    pub fn worth(&self) -> u32
        ensures { result ≡ self.now.goal - 1 }
    {
        self.goal.saturating_sub(1)
    }
}
