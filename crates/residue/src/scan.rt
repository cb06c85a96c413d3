// The place of the first number of a list that is too large for a residue.
ghost use Rattle.std.specs.Prelude.{◌≡◌, ℕ, ◌<◌, ◌≤◌, length, get_or, position};
ghost use Rattle.residue.specs.Large.{too_large};

fn too_large(x: u16) -> bool
    ensures { result ≡ too_large x }
{
    x > 3456
}

// No number of the list is above it.
fn largest(list: &[u16]) -> u16
    ensures { (i : ℕ) → i < length list.now → get_or list.now i 0 ≤ result }
{
    list.iter().copied().max().unwrap_or(0)
}

// The largest number tells faster than a search that there is none, so the place is looked for only where there is one.
pub fn first_large(list: &[u16]) -> Option<usize>
    ensures { result ≡ position too_large list.now }
{
    if too_large(largest(list)) {
        list.iter().position(|x| too_large(*x))
    } else {
        None
    }
}
