// Connections by their place in the file, and by the number that they were given. 0 and no `None` where there is none: so the definitions
// `number_of` and `place_of` have it, and an offer takes any number.
ghost use Rattle.std.specs.Prelude.{◌≤◌, ◌≡◌, length};
ghost use Rattle.meaning.specs.Run.{number_of, place_of};

// "Arrivals name connections by place in the file, counted from 1; those of a refused connection or of no place get 7": 0 names none.
pub fn number_of(numbers: &[u32], place: u32) -> u32
    ensures { result ≡ number_of numbers.now place }
{
    let Some(i) = place.checked_sub(1) else {
        return 0;
    };
    numbers.get(i as usize).copied().unwrap_or(0)
}

// The place in the file of the connection of this number.
pub fn place_of(numbers: &[u32], n: u32) -> u32
    requires { length numbers.now ≤ 32 }
    ensures { result ≡ place_of 1 numbers.now n }
{
    numbers
        .iter()
        .position(|m| *m == n)
        .map_or(0, |i| (i + 1) as u32)
}
