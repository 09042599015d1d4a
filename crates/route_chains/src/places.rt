// Places that are full or empty.
ghost use Rattle.std.specs.Prelude.{◌≡◌, ◌+◌, ◌<◌, ◌++◌, ◌∷◌, [], Some, slice_get, slice_set, vec_len, vec_capacity};
ghost use Rattle.route_chains.specs.Places.{held};

fn read<T: Copy>(places: &[Option<T>], place: usize) -> Option<Option<T>>
    ensures { result ≡ slice_get places.now place }
{
    places.get(place).copied()
}

/// What stands at a place.
pub fn held<T: Copy>(places: &[Option<T>], place: usize) -> Option<T>
    ensures { result ≡ held places.now place }
{
    match read(places, place) {
        Some(value) => value,
        None => None,
    }
}

/// Fills or empties a place.
pub fn put<T: Copy>(places: &mut Vec<Option<T>>, place: usize, value: Option<T>)
    requires { place < vec_len places.old }
    ensures items { places.new.items ≡ slice_set places.old.items place value }
    ensures len { vec_len places.new ≡ vec_len places.old }
    ensures capacity { vec_capacity places.new ≡ vec_capacity places.old }
{
    places[place] = value;
}

/// Fills a new place after the others, in the room that is there.
pub fn push_held<T: Copy>(places: &mut Vec<Option<T>>, value: T)
    requires { vec_len places.old < vec_capacity places.old }
    ensures items { places.new.items ≡ places.old.items ++ Some value ∷ [] }
    ensures len { vec_len places.new ≡ vec_len places.old + 1 }
    ensures capacity { vec_capacity places.new ≡ vec_capacity places.old }
{
    let _ = places.insert(places.len(), Some(value));
}
