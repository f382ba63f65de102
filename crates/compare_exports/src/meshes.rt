// The exported call.
ghost use Rattle.compare_exports.specs.Calls.{CompareCalled};

use crate::reply::CountReply;
use compare_meshes::tool::compare;
use mesh_geometry::Mesh;

#[unsafe(no_mangle)]
pub extern "C" fn yoktvarim_compare_meshes(
    left_points: &[u32],
    left_indices: &[u16],
    right_points: &[u32],
    right_indices: &[u16],
    differences: &mut [u64],
    count: &mut [u64; 1],
) -> u32
    ensures { CompareCalled (record { points = left_points.now; indices = left_indices.now })
        (record { points = right_points.now; indices = right_indices.now })
        differences.old differences.new count.new result }
{
    let left = Mesh {
        points: left_points,
        indices: left_indices,
    };
    let right = Mesh {
        points: right_points,
        indices: right_indices,
    };
    let reply = CountReply::from(compare(left, right, differences));
    *count = [reply.count];
    reply.number
}
