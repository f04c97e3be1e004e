// One entry of a decision list.
ghost use Rattle.std.specs.Prelude.{◌≡◌};
ghost use Rattle.rules.specs.Decisions.{is_open, is_kept, is_dropped};
ghost use Rattle.given.specs.Given.{decided};

use sheet::Decision;

pub fn is_open(c: Decision) -> bool
    ensures { result ≡ is_open (decided c) }
{
    c == Decision::Open
}

pub fn is_kept(c: Decision) -> bool
    ensures { result ≡ is_kept (decided c) }
{
    c == Decision::Kept
}

pub fn is_dropped(c: Decision) -> bool
    ensures { result ≡ is_dropped (decided c) }
{
    c == Decision::Dropped
}
