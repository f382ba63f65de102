// Why a drawing is refused, found before the first word is written: the lowest number that applies.
ghost use Rattle.std.specs.Prelude.{◌≡◌};
ghost use Rattle.draw_floats.specs.Answers.{floats_code, floats_room_verdict, floats_verdict};

use crate::refusal::FloatsRefusal;
use measure::measure;
use measure::size::DrawnCounts;
use patch::kinds::Patch;
use patch::settings::Settings;

// The counts again, if lists of these lengths have room for so many points and indices.
fn find_room(
    counts: DrawnCounts,
    vertex_words: usize,
    index_words: usize,
    float_words: usize,
) -> Result<DrawnCounts, FloatsRefusal>
    ensures { floats_code result ≡ floats_room_verdict counts.points counts.indices vertex_words index_words float_words }
{
    let words = 3 * (counts.points as usize);
    if vertex_words < words {
        return Err(FloatsRefusal::NoRoomForVertices);
    }
    if index_words < counts.indices as usize {
        return Err(FloatsRefusal::NoRoomForIndices);
    }
    if float_words < words {
        return Err(FloatsRefusal::NoRoomForFloats);
    }
    Ok(counts)
}

pub(crate) fn judge(
    patch: Patch,
    settings: Settings,
    vertex_words: usize,
    index_words: usize,
    float_words: usize,
) -> Result<DrawnCounts, FloatsRefusal>
    ensures { floats_code result ≡ floats_verdict settings patch vertex_words index_words float_words }
{
    let size = measure(patch, settings)?;
    let counts = DrawnCounts {
        points: size.points,
        indices: size.indices,
    };
    find_room(counts, vertex_words, index_words, float_words)
}
