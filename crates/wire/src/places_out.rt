// A sequence to its bytes, place by place.
ghost use Rattle.std.specs.Prelude.{◌≡◌, ◌-◌, ◌≤◌, length};
ghost use Rattle.print.specs.Put.{put};
ghost use Rattle.wire.specs.Places.{number_at, place_numbers, places_in_use};

use sheet::{Number, Position};

// The catalogue number at a place.
fn number_at(places: &[Number; 32], position: Position) -> u8
    requires { (1 ≤ position.0) × (position.0 ≤ 32) }
    ensures { result ≡ number_at places.now (position.0 - 1) }
{
    places[usize::from(position.0) - 1].0
}

pub fn put_places(places: [Number; 32], out: &mut [u8])
    requires { 32 ≤ length out.old }
    ensures { out.new ≡ put 0 (place_numbers places) out.old }
{
    // By `as`: a place is at most 32, and try_from would bring a refusal that cannot come.
    for i in 0..32 {
        out[i] = number_at(&places, Position(i as u8 + 1));
    }
}

// How many places hold an option.
pub fn places_in_use(places: [Number; 32]) -> usize
    ensures { (result ≡ places_in_use places) × (result ≤ 32) }
{
    places.iter().filter(|number| number.0 != 0).count()
}
