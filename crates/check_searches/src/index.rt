// Searches in a list of indices.
ghost use Rattle.std.specs.Prelude.{◌≡◌, false, ◌≤◌, length};
ghost use Rattle.check_searches.specs.Indices.{first_unknown_index, Lacks};

// Returns the place of the first index that is not the number of a point, or the number of indices.
pub fn first_unknown(indices: &[u16], count: usize) -> usize
    ensures { result ≡ first_unknown_index indices.now count }
{
    for (k, x) in indices.iter().enumerate() {
        if count <= *x as usize {
            return k;
        }
    }
    indices.len()
}

// Whether x or y is among the indices from place `from` up to, not including, `to`. It always reads all of them, so that it can
// compare several at once.
pub fn holds(indices: &[u16], from: usize, to: usize, x: u16, y: u16) -> bool
    requires { to ≤ length indices.now }
    ensures { result ≡ false → Lacks indices.now from to x y }
{
    let mut found = false;
    for k in from..to {
        found = found | (indices[k] == x) | (indices[k] == y);
    }
    found
}
