// How far a table of sides shows that a mesh is free of the faults of sides and outline. The table is as large as the mesh
// needs; a mesh that is too large for it is not examined.
ghost use Rattle.std.specs.Prelude.{◌≤◌, ◌<◌, length};
ghost use Rattle.mesh_geometry.specs.Words.{read_points};
ghost use Rattle.check_faults.specs.Judged.{judged_by};
ghost use Rattle.check_watertight.specs.Closing.{Shown};

use check_faults::mesh::NumberedMesh;
use half_edges::table::{BitTable, ChainTable, SizedTable};

// How many triangles, from the first on, have no side in common with an earlier one; how many sides, from the first on, are
// closed; and how many pieces of the outline, from the first on, are sides.
#[derive(Clone, Copy, Drop)]
pub struct Reached {
    pub once: usize,
    pub joined: usize,
    pub drawn: usize,
}

// How far no fault of sides or outline occurs, by a table of the form T, a list with room for OPENS sides without a reverse,
// and marks for MARKS pieces.
fn reach_by<T: SizedTable, const OPENS: usize, const MARKS: usize>(mesh: NumberedMesh) -> Reached
    requires vertices { length (read_points mesh.points.now) ≤ T.vertices }
    requires room { length mesh.indices.now ≤ T.room }
    requires few { length mesh.indices.now < 65536 }
    requires sizes { (OPENS < 65536) × (MARKS < 65536) }
    ensures { Shown (judged_by mesh.entry) result }
{
    let mut table = T::empty();
    let mut opens = [0u16; OPENS];
    let mut marks = [0u16; MARKS];
    let once = half_edges::filling::fill(mesh.indices, &mut table);
    if once < mesh.indices.len() / 3 {
        return Reached {
            once,
            joined: 0,
            drawn: 0,
        };
    }
    let count = half_edges::opens::open_sides(mesh.indices, &table, &mut opens);
    if opens.len() < count {
        return Reached {
            once,
            joined: 0,
            drawn: 0,
        };
    }
    let joined = crate::pieces::all_pieces(mesh, &opens, count, &mut marks);
    let drawn = crate::pieces::first_unmarked(&marks, mesh.outline.len() / 3);
    Reached {
        once,
        joined,
        drawn,
    }
}

// Returns how far no fault of sides or outline occurs. A search that starts there finds the first fault of each kind.
pub fn reach(mesh: NumberedMesh) -> Reached
    ensures { Shown (judged_by mesh.entry) result }
{
    if 24576 < mesh.points.len() {
        return Reached {
            once: 0,
            joined: 0,
            drawn: 0,
        };
    }
    if 25344 < mesh.indices.len() {
        return Reached {
            once: 0,
            joined: 0,
            drawn: 0,
        };
    }
    // Chains for up to 8192 points and 8448 triangles. The largest patch has 4225 points, 8192 triangles and 256 pieces of the
    // outline.
    if 192 < mesh.points.len() {
        return reach_by::<ChainTable<8192, 25344>, 1024, 256>(mesh);
    }
    reach_by::<BitTable, 128, 64>(mesh)
}
