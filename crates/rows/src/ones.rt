// The options of a set, the first one first.
ghost use Rattle.std.specs.Prelude.{◌<◌};
ghost use Rattle.std.specs.Iterator.{YieldsFirst, item_count};
ghost use Rattle.std.specs.Option.{ForSome};
ghost use Rattle.rows.specs.Ones.{slots};

// Those that are still to come.
#[derive(Clone, Copy)]
pub struct Ones(pub u32);

impl Iterator for Ones {
    type Item = usize;

    ghost next_gives = { λ s r t. YieldsFirst (λ (o : _). slots o.0) s r t × ForSome r (λ i. i < 32) };

    ghost remaining = { item_count (λ s. slots s.0) };

    fn next(&mut self) -> Option<usize> {
        if self.0 == 0 {
            return None;
        }
        // By `as`: usize has no From<u32>.
        let i = self.0.trailing_zeros() as usize;
        self.0 &= self.0 - 1;
        Some(i)
    }
}
