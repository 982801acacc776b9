// Stores where there is room.
ghost use Rattle.std.specs.Prelude.{◌≡◌, set};

// Stores a value at a place, if there is one.
pub fn store<T: Copy>(values: &mut [T], at: usize, x: T)
    ensures { values.new ≡ set values.old at x }
{
    if at < values.len() {
        values[at] = x;
    }
}
