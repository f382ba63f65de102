// Measuring and drawing: each call is that of `draw_exports`, with its contract.
ghost use Rattle.draw_exports.specs.Calls.{MeasureCalled, PointsCalled, IndicesCalled};

#[unsafe(no_mangle)]
pub extern "C" fn yoktvarim_measure(
    settings: &[u8; 6],
    levels: &[f32; 6],
    counts: &mut [u32; 2],
    clamps: &mut [u8; 6],
) -> u32
    ensures { MeasureCalled settings.now levels.now counts.new clamps.new result }
{
    draw_exports::measuring::yoktvarim_measure(settings, levels, counts, clamps)
}

#[unsafe(no_mangle)]
pub extern "C" fn yoktvarim_draw_points(
    settings: &[u8; 6],
    levels: &[f32; 6],
    vertices: &mut [u32],
    count: &mut [u32; 1],
) -> u32
    ensures { PointsCalled settings.now levels.now vertices.old vertices.new count.new result }
{
    draw_exports::draw::yoktvarim_draw_points(settings, levels, vertices, count)
}

#[unsafe(no_mangle)]
pub extern "C" fn yoktvarim_draw_indices(
    settings: &[u8; 6],
    levels: &[f32; 6],
    indices: &mut [u16],
    count: &mut [u32; 1],
) -> u32
    ensures { IndicesCalled settings.now levels.now indices.old indices.new count.new result }
{
    draw_exports::draw::yoktvarim_draw_indices(settings, levels, indices, count)
}
