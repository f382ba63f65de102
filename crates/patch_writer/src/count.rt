// How many points and indices a patch has, in closed form.
ghost use Rattle.std.specs.Prelude.{◌≡◌, ◌+◌, ◌-◌, ◌*◌, ◌≤◌};
ghost use Rattle.patch_mesh.specs.Counts.{inside_points, inside_triangles, point_count, primitive_count, count_in};
ghost use Rattle.patch_mesh.specs.Valid.{ValidCut};

use patch::subdivision::Subdivision;

// How many points a patch has, and how many index words its triangles or lines have.
#[derive(Clone, Copy, Drop)]
struct Counts {
    points: u32,
    words: u32,
}

// Returns the counts of a triangle patch whose outer edges have `outer` segments in all and whose inner level gives n.
fn triangle_counts(outer: u32, n: u32) -> Counts
    requires { (outer ≤ 192) × (2 ≤ n) × (n ≤ 64) }
    ensures { (result.points ≡ outer + inside_points n) × (result.words ≡ 3 * (outer + inside_triangles n)) }
{
    let p = (n - 1) * (n - 1);
    let q = (n - 2) * (n - 2);
    Counts {
        points: outer + (3 * p + 1) / 4,
        words: 3 * (outer + (3 * (n - 2) + 3 * q / 2)),
    }
}

// Returns the counts of a quad patch whose outer edges have `outer` segments in all and whose inner levels give m and n.
fn quad_counts(outer: u32, m: u32, n: u32) -> Counts
    requires { (outer ≤ 256) × ((2 ≤ m) × (m ≤ 64) × (2 ≤ n) × (n ≤ 64)) }
    ensures { (result.points ≡ outer + (m - 1) * (n - 1)) × (result.words ≡ 3 * (outer + 2 * (m - 2) + 2 * (n - 2) + 2 * ((m - 2) * (n - 2)))) }
{
    let p = (m - 1) * (n - 1);
    let q = (m - 2) * (n - 2);
    Counts {
        points: outer + p,
        words: 3 * (outer + 2 * (m - 2) + 2 * (n - 2) + 2 * q),
    }
}

// Returns the counts of `lines` isolines with `along` segments each.
fn line_counts(lines: u32, along: u32) -> Counts
    requires { (lines ≤ 64) × (along ≤ 64) }
    ensures { (result.points ≡ lines * (along + 1)) × (result.words ≡ 2 * (lines * along)) }
{
    Counts {
        points: lines * (along + 1),
        words: 2 * (lines * along),
    }
}

fn counts_of(cut: Subdivision) -> Counts
    requires { ValidCut cut }
    ensures { (result.points ≡ point_count cut) × (result.words ≡ primitive_count cut) }
{
    match cut {
        Subdivision::Discarded => Counts {
            points: 0,
            words: 0,
        },
        Subdivision::PlainTriangle => Counts {
            points: 3,
            words: 3,
        },
        Subdivision::Triangle {
            edge0,
            edge1,
            edge2,
            inside,
        } => triangle_counts(edge0.count + edge1.count + edge2.count, inside.count),
        Subdivision::PlainQuad => Counts {
            points: 4,
            words: 6,
        },
        Subdivision::Quad {
            edge0,
            edge1,
            edge2,
            edge3,
            rows,
            columns,
        } => quad_counts(
            edge0.count + edge1.count + edge2.count + edge3.count,
            rows.count,
            columns.count,
        ),
        Subdivision::Lines { lines, along } => line_counts(lines.count, along.count),
    }
}

pub fn point_count(cut: Subdivision) -> u32
    requires { ValidCut cut }
    ensures { result ≡ point_count cut }
{
    counts_of(cut).points
}

// Returns the number of indices; point mode has one per point.
pub fn index_count(cut: Subdivision, point_mode: bool) -> u32
    requires { ValidCut cut }
    ensures { result ≡ count_in point_mode cut }
{
    let counts = counts_of(cut);
    if point_mode {
        counts.points
    } else {
        counts.words
    }
}
