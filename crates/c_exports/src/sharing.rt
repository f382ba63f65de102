// Two designers on shared lists: each call is that of `share_exports`, with its contract.
ghost use Rattle.std.specs.Prelude.{length};
ghost use Rattle.share_exports.specs.Calls.{StartCalled, DrawCalled, ClearCalled};

#[unsafe(no_mangle)]
pub extern "C" fn yoktvarim_share_start(
    vertices: &[u32],
    indices: &[u16],
    quotas: &[u64; 4],
    state: &mut [u64; 10],
) -> u32
    ensures { StartCalled quotas.now (length vertices.now) (length indices.now) state.old state.new result }
{
    share_exports::start::yoktvarim_share_start(vertices, indices, quotas, state)
}

#[unsafe(no_mangle)]
pub extern "C" fn yoktvarim_share_draw(
    state: &mut [u64; 10],
    designer: u32,
    settings: &[u8; 6],
    levels: &[f32; 6],
    vertices: &mut [u32],
    indices: &mut [u16],
    counts: &mut [u32; 2],
) -> u32
    ensures { DrawCalled settings.now levels.now designer
        (record { words = state.old; vertices = vertices.old; indices = indices.old })
        (record { words = state.new; vertices = vertices.new; indices = indices.new }) counts.new result }
{
    share_exports::draw::yoktvarim_share_draw(
        state, designer, settings, levels, vertices, indices, counts,
    )
}

#[unsafe(no_mangle)]
pub extern "C" fn yoktvarim_share_clear(
    state: &mut [u64; 10],
    designer: u32,
    vertices: &[u32],
    indices: &[u16],
) -> u32
    ensures { ClearCalled designer (length vertices.now) (length indices.now) state.old state.new result }
{
    share_exports::clear::yoktvarim_share_clear(state, designer, vertices, indices)
}
