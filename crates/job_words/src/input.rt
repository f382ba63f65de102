// The record of a caller's setting bytes and bit patterns.
ghost use Rattle.std.specs.Prelude.{◌≡◌};
ghost use Rattle.job_words.specs.Inputs.{bits_in, record_in};

use call_inputs::input::top_in;
use job::record::Record;
use job_bytes::level_bits::record_of_bits;
use job_fields::levels::Levels;
use job_fields::setting::{Kind, SettingByte, read_settings};

fn bits_in(patterns: &[u32; 6]) -> Levels<u32>
    ensures { result ≡ bits_in patterns.now }
{
    Levels {
        outer0: patterns[0],
        outer1: patterns[1],
        outer2: patterns[2],
        outer3: patterns[3],
        inner0: patterns[4],
        inner1: patterns[5],
    }
}

pub fn record_in(settings: &[u8; 6], patterns: &[u32; 6]) -> Record
    ensures { result ≡ record_in settings.now patterns.now }
{
    let kind = Kind::of_byte(settings[0]);
    let top = top_in(settings);
    let set = read_settings(settings, 0, top);
    let bits = bits_in(patterns);
    record_of_bits(kind, set, bits)
}
