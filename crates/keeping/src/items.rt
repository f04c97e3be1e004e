// One item more decided. An item has one number: option i is i, ordering u is 32 + u. It stays a number: chains hold items as bytes, and the
// theorems on links, charges and loose items speak of it.
ghost use Rattle.std.specs.Prelude.{◌≡◌, ◌<◌};
ghost use Rattle.keeping.specs.Sets.{nothing_given, with_item_kept, with_item_dropped};

use given::Given;
use rows::Slots;

// Nothing is decided.
pub fn nothing_given() -> Given
    ensures { result ≡ nothing_given }
{
    Given {
        kept: 0,
        dropped: 0,
        kept_orderings: 0,
        dropped_orderings: 0,
    }
}

#[tactic(auto, unfolding(crate::specs::Sets::with_item_kept))]
pub fn keep_item(g: Given, x: usize) -> Given
    requires { x < 96 }
    ensures { result ≡ with_item_kept g x }
{
    if x < 32 {
        Given {
            kept: g.kept.put(x),
            ..g
        }
    } else {
        Given {
            kept_orderings: g.kept_orderings.put(x - 32),
            ..g
        }
    }
}

#[tactic(auto, unfolding(crate::specs::Sets::with_item_dropped))]
pub fn drop_item(g: Given, x: usize) -> Given
    requires { x < 96 }
    ensures { result ≡ with_item_dropped g x }
{
    if x < 32 {
        Given {
            dropped: g.dropped.put(x),
            ..g
        }
    } else {
        Given {
            dropped_orderings: g.dropped_orderings.put(x - 32),
            ..g
        }
    }
}
