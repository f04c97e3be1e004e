// A search's value and ceiling.
ghost use Rattle.std.specs.Prelude.{[], ◌∷◌, ◌≡◌, ◌≤◌, length};
ghost use Rattle.print.specs.Put.{put};

pub fn put_totals(value: u32, ceiling: u32, out: &mut [u32])
    requires { 2 ≤ length out.old }
    ensures { out.new ≡ put 0 (value ∷ ceiling ∷ []) out.old }
{
    out[0] = value;
    out[1] = ceiling;
}
