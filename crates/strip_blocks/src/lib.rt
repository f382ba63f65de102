// Eight steps of a strip at a time. Four pairs of steps are 24 words; if the vertices of both lines are consecutive, the next
// four pairs are the same words plus 4. The 24 words fit into registers, so each store writes a whole vector.
#![tactic(auto)]

ghost use Rattle.std.specs.Prelude.{◌≡◌, false, [], ◌∷◌, ◌++◌, ◌+◌, ◌*◌, ◌≤◌, ◌<◌, length};
ghost use Rattle.buffer.specs.Over.{Wrote, flat};
ghost use Rattle.shifted_copies.specs.Copies.{shifted, copy};
ghost use Rattle.strip.specs.Triangles.{indices};
ghost use Rattle.strip.specs.Strips.{strip, step_triangle};
ghost use Rattle.strip_blocks.specs.Blocks.{on, pair_on, block_pattern, line_of};

use strip::line::Line;

// For each of the 24 words, 1 if it is on the inner line, else 0; then, for each word, how far along its line it is.
const POSITIVE: [u16; 48] = [
    0, 0, 1, 0, 1, 1, 0, 0, 1, 0, 1, 1, 0, 0, 1, 0, 1, 1, 0, 0, 1, 0, 1, 1, 0, 1, 0, 1, 1, 0, 1, 2,
    1, 2, 2, 1, 2, 3, 2, 3, 3, 2, 3, 4, 3, 4, 4, 3,
];

// The same, with the second and third corner of each triangle exchanged.
const NEGATIVE: [u16; 48] = [
    0, 1, 0, 0, 1, 1, 0, 1, 0, 0, 1, 1, 0, 1, 0, 0, 1, 1, 0, 1, 0, 0, 1, 1, 0, 0, 1, 1, 0, 1, 1, 1,
    2, 2, 1, 2, 2, 2, 3, 3, 2, 3, 3, 3, 4, 4, 3, 4,
];

// The pattern of four pairs in one orientation. A writer of many strips makes it once and passes a reference: where LLVM sees the
// numbers, it splits the vectors up again.
#[derive(Clone, Copy, Drop)]
pub struct Pattern {
    words: [u16; 48],
    pub positive: bool,
    ghost laid: { words ≡ block_pattern positive },
}

impl Pattern {
    pub fn new(positive: bool) -> Pattern
        ensures { result.positive ≡ positive }
    {
        let words = if positive { POSITIVE } else { NEGATIVE };
        Pattern { words, positive }
    }

    // Returns the four pairs between the lines of consecutive vertices from x and from y on.
    fn block(&self, x: u16, y: u16) -> [u16; 24]
        requires { x ≤ y }
        ensures { result ≡ flat (pair_on self.now.positive x y) 0 4 }
    {
        let d = u32::from(y - x);
        let first = u32::from(x);
        let mut words = [0u16; 24];
        for i in 0..24 {
            let line = u32::from(self.words[i]);
            let on = u32::from(self.words[24 + i]);
            words[i] = ((line * d + on + first) % 65536) as u16;
        }
        words
    }
}

// Adds `by` to each of 24 words.
fn raise(words: &mut [u16; 24], by: u32)
    requires { by ≤ 64 }
    ensures { words.new ≡ shifted by words.old }
{
    for x in words.iter_mut() {
        *x = ((u32::from(*x) + by) % 65536) as u16;
    }
}

// Writes the 24 words k times, each time plus 4.
fn write_blocks(out: &mut [u16], at: usize, words: &mut [u16; 24], k: u32) -> usize
    requires { at + 24 * k ≤ length out.old }
    ensures { Wrote out.old at (flat (copy 4 words.old) 0 k) out.new result }
{
    let mut to = at;
    for _block in 0..k {
        to = buffer::put_all(out, to, words);
        raise(words, 4);
    }
    to
}

// Writes n pairs, at least four, between the lines from x and from y on. It writes the first four, then the others in blocks of
// four that end at the last pair; so it writes some words twice, with the same values.
pub(crate) fn write_run(
    out: &mut [u16],
    at: usize,
    x: u16,
    y: u16,
    n: u32,
    pattern: &Pattern,
) -> usize
    requires counts { (x ≤ y) × (4 ≤ n) × (n ≤ 64) }
    requires room { at + 6 * n ≤ length out.old }
    ensures { Wrote out.old at (flat (pair_on pattern.now.positive x y) 0 n) out.new result }
{
    let k = (n - 1) / 4;
    let m = n - 4 * k;
    let mut words = pattern.block(x, y);
    buffer::put_all(out, at, &words);
    raise(&mut words, m);
    write_blocks(out, at + 6 * m as usize, &mut words, k)
}

// Writes the strip between r + 2 segments of the line from x on and r segments of the line from y on, and one further triangle
// that the caller overwrites. It writes pairs up to the middle of the inner line and one more, whose second triangle the
// following pairs overwrite. Returns the place after the strip.
pub fn write_open(out: &mut [u16], at: usize, x: u16, y: u16, r: u32, pattern: &Pattern) -> usize
    requires counts { (10 ≤ r) × (r ≤ 62) × (x + 2 ≤ y) × (y + r < 65536) }
    requires room { at + 6 * r + 9 ≤ length out.old }
    ensures { Wrote out.old at (indices pattern.now.positive (strip (on x) (on y) (r + 2) r) ++ indices pattern.now.positive (step_triangle (on x) (on y) false (r + 2) r ∷ [])) out.new (result + 3) }
{
    let h = r / 2;
    write_run(out, at, x, y, h + 1, pattern);
    let u = x + (h + 1) as u16;
    let v = y + h as u16;
    let w = write_run(out, at + 6 * h as usize + 3, u, v, r - h + 1, pattern);
    w - 3
}

// Writes the strip between the line of r + 2 segments from x on, whose last vertex is e, and the line of r segments from y on,
// whose last vertex is f: the same pairs, and the last three steps.
pub fn write_long(
    out: &mut [u16],
    at: usize,
    x: u16,
    y: u16,
    e: u16,
    f: u16,
    r: u32,
    pattern: &Pattern,
) -> usize
    requires counts { (10 ≤ r) × (r ≤ 62) × (x + 2 ≤ y) × (y + r < 65536) }
    requires room { at + 6 * r + 6 ≤ length out.old }
    ensures { Wrote out.old at (indices pattern.now.positive (strip (line_of x (r + 2) e) (line_of y r f) (r + 2) r)) out.new result }
{
    let h = r / 2;
    write_run(out, at, x, y, h + 1, pattern);
    let u = x + (h + 1) as u16;
    let v = y + h as u16;
    let w = write_run(out, at + 6 * h as usize + 3, u, v, r - h - 1, pattern);
    let outer = Line {
        first: x,
        step: 1,
        count: r + 2,
        last: e,
    };
    let inner = Line {
        first: y,
        step: 1,
        count: r,
        last: f,
    };
    strip_pairs::write_last(
        out,
        w,
        outer,
        inner,
        x + r as u16,
        y + (r - 1) as u16,
        pattern.positive,
    )
}
