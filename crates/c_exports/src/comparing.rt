// Comparing two meshes: each call is that of `compare_exports`, with its contract.
ghost use Rattle.compare_exports.specs.Calls.{CompareCalled};

#[unsafe(no_mangle)]
pub extern "C" fn yoktvarim_compare_meshes(
    left_points: &[u32],
    left_indices: &[u16],
    right_points: &[u32],
    right_indices: &[u16],
    differences: &mut [u64],
    count: &mut [u64; 1],
) -> u32
    ensures { CompareCalled (record { points = left_points.now; indices = left_indices.now })
        (record { points = right_points.now; indices = right_indices.now })
        differences.old differences.new count.new result }
{
    compare_exports::meshes::yoktvarim_compare_meshes(
        left_points,
        left_indices,
        right_points,
        right_indices,
        differences,
        count,
    )
}
