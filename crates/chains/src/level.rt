// The levels of a walk through open items: which options are reached, and at which options open orderings end.
ghost use Rattle.std.specs.Prelude.{◌+◌, ◌≤◌, ◌<◌, length, IfSome};

use crate::chain::Hints;
use crate::member::end_of;
use chart::Chart;
use rows::{Ones, Slots};

// How far the walk is: what is known after the items of the level before, where open orderings may begin, and what was met.
#[derive(Clone, Copy)]
pub struct Front {
    pub reach: u32,
    pub from: u32,
    pub met_options: u32,
    pub met_seconds: u32,
}

// One level: the options in it, the ends of the orderings in it, and where those may begin.
#[derive(Clone, Copy)]
pub struct Level {
    pub options: u32,
    pub seconds: u32,
    pub from: u32,
}

// What leads to the beginning of an item: options known before it, and the ends of orderings from which it goes on there.
#[derive(Clone, Copy)]
pub struct Goal {
    pub before: u32,
    pub ends: u32,
}

// Orderings that end where an ordering begins count; at an option only those that end before it.
pub fn goal_of(chart: &Chart, after: &[u32; 32], item: usize) -> Goal
    requires { item < 32 + chart.now.ordering_count }
{
    let beginning = end_of(&chart.firsts, chart.ordering_count, item);
    let before = after[beginning];
    Goal {
        before,
        ends: before.put_if(beginning, item >= 32),
    }
}

impl Level {
    pub(crate) fn is_empty(self) -> bool {
        self.options | self.seconds == 0
    }

    // The part of the level that leads to a goal.
    pub(crate) fn leading_to(self, goal: Goal) -> Level {
        Level {
            options: self.options & goal.before,
            seconds: self.seconds & goal.ends,
            from: self.from,
        }
    }
}

// The rows of every member of a set, joined.
fn joined_rows(table: &[u32; 32], set: u32) -> u32 {
    let mut joined: u32 = 0;
    for i in Ones(set) {
        joined |= table[i];
    }
    joined
}

impl Front {
    // The next level: open options that are reached, and ends of open orderings that begin there, each met for the first time.
    pub(crate) fn level(self, hints: &Hints) -> Level {
        Level {
            options: self.reach & hints.positive & !self.met_options,
            seconds: joined_rows(&hints.soft, self.from) & !self.met_seconds,
            from: self.from,
        }
    }

    // What is known after the items of a level.
    fn after(self, known: &[u32; 32], level: Level) -> Front {
        let reach = joined_rows(known, level.options | level.seconds);
        Front {
            reach,
            from: reach | level.seconds,
            met_options: self.met_options | level.options,
            met_seconds: self.met_seconds | level.seconds,
        }
    }
}

// Writes the levels down, from the first one on and fewer than `most`, until one closes the chain, and gives its number.
pub fn levels(
    known: &[u32; 32],
    hints: &Hints,
    start: Front,
    first: Level,
    goal: Goal,
    most: usize,
    page: &mut [Level; 64],
) -> Option<usize>
    requires { most ≤ 60 }
    ensures { IfSome result (λ l. l < 60) }
{
    let mut front = start;
    let mut level = first;
    for l in 1..most {
        if level.is_empty() {
            return None;
        }
        page[l] = level;
        if !level.leading_to(goal).is_empty() {
            return Some(l);
        }
        if l + 1 < most {
            front = front.after(known, level);
            level = front.level(hints);
        }
    }
    None
}
