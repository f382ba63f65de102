// Drawing with floats: each call is that of `float_exports`, with its contract.
ghost use Rattle.float_exports.specs.Calls.{FloatsCalled};

#[unsafe(no_mangle)]
pub extern "C" fn yoktvarim_draw_with_floats(
    settings: &[u8; 6],
    levels: &[f32; 6],
    vertices: &mut [u32],
    indices: &mut [u16],
    floats: &mut [f32],
    counts: &mut [u32; 2],
) -> u32
    ensures { FloatsCalled settings.now levels.now
        (record { vertices = vertices.old; indices = indices.old; floats = floats.old })
        (record { vertices = vertices.new; indices = indices.new; floats = floats.new }) counts.new result }
{
    float_exports::yoktvarim_draw_with_floats(settings, levels, vertices, indices, floats, counts)
}
