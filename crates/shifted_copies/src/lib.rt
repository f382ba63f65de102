// Shifted copies of words: each copy exceeds the one before by the same number.
#![tactic(auto)]

ghost use Rattle.std.specs.Prelude.{◌+◌, ◌-◌, ◌*◌, ◌≤◌, ◌<◌, length, take, drop};
ghost use Rattle.buffer.specs.Over.{Wrote, flat};
ghost use Rattle.shifted_copies.specs.Copies.{shifted, copy};

// Writes the n words from `from` on again, each plus `by`, modulo 65536. A single plain loop, so that it compiles to vector code.
fn write_copy(out: &mut [u16], from: usize, at: usize, n: usize, by: usize) -> usize
    requires apart { (from + n ≤ at) × (by ≤ 65536) }
    requires room { at + n ≤ length out.old }
    ensures { Wrote out.old at (shifted by (take n (drop from out.old))) out.new result }
{
    let mut to = at;
    for i in 0..n {
        let x = out[from + i] as usize;
        to = buffer::put(out, to, ((x + by) % 65536) as u16);
    }
    to
}

// Writes copies of the n words from `at` on until there are k in all; each round copies all that are there, or as many as are left to write.
pub fn write_copies(out: &mut [u16], at: usize, n: usize, k: usize, by: usize) -> usize
    requires counts { (1 ≤ k) × (k ≤ 64) × (by ≤ 1024) }
    requires room { at + k * n ≤ length out.old }
    ensures { Wrote out.old (at + n) (flat (copy by (take n (drop at out.old))) 1 (k - 1)) out.new result }
{
    let mut to = at + n;
    let mut r = 1usize;
    // Kept: each round copies all that is there, so no range gives the rounds.
    while r < k {
        let m = r.min(k - r);
        to = write_copy(out, at, to, m * n, r * by);
        r += m;
    }
    to
}
