// Writes a line for each of several levels on both sides of the limits: the level's bits, the spacing, the top level, whether
// it discards (or is an inner level, which never does), where it lies in the spacing's range, the number of segments n and the
// scaled level L. Then writes which numbers can be the top level.
#![tactic(auto)]

ghost use Rattle.level.specs.Top.{Top};

use level::{Clamp, Clamped, Segments, Spacing};
use std::io::{self, Print, Stdout};

fn main(rt: HostRuntime) -> io::Result<()> {
    let out = rt.stdout();
    limits(out)?;
    ends(out)?;
    lower_tops(out)?;
    for spacing in [
        Spacing::Equal,
        Spacing::FractionalEven,
        Spacing::FractionalOdd,
    ] {
        each_outer(out, spacing)?;
    }
    for spacing in [
        Spacing::Equal,
        Spacing::FractionalEven,
        Spacing::FractionalOdd,
    ] {
        each_inner(out, spacing)?;
    }
    each_top(out)?;
    Ok(())
}

// Equal at 1 and just above, odd at 63 and 64, even at 0.5, equal at 64 and 1000; then odd just above 1 and even just above 2.
fn limits(out: Stdout) -> io::Result<()> {
    for (bits, spacing) in [
        (0x3f80_0000, Spacing::Equal),
        (0x3f80_0001, Spacing::Equal),
        (0x427c_0000, Spacing::FractionalOdd),
        (0x4280_0000, Spacing::FractionalOdd),
        (0x3f00_0000, Spacing::FractionalEven),
        (0x4280_0000, Spacing::Equal),
        (0x447a_0000, Spacing::Equal),
        (0x3f80_0001, Spacing::FractionalOdd),
        (0x4000_0001, Spacing::FractionalEven),
    ] {
        outer(out, bits, spacing, 64)?;
    }
    Ok(())
}

// The ends of each range, and the next f32 outside each end.
fn ends(out: Stdout) -> io::Result<()> {
    for (bits, spacing) in [
        (0x3f7f_ffff, Spacing::Equal),
        (0x3f80_0000, Spacing::Equal),
        (0x4280_0000, Spacing::Equal),
        (0x4280_0001, Spacing::Equal),
        (0x3fff_ffff, Spacing::FractionalEven),
        (0x4000_0000, Spacing::FractionalEven),
        (0x4280_0000, Spacing::FractionalEven),
        (0x4280_0001, Spacing::FractionalEven),
        (0x3f7f_ffff, Spacing::FractionalOdd),
        (0x3f80_0000, Spacing::FractionalOdd),
        (0x427c_0000, Spacing::FractionalOdd),
        (0x427c_0001, Spacing::FractionalOdd),
    ] {
        outer(out, bits, spacing, 64)?;
    }
    Ok(())
}

// The high end and the next f32 above it, for the top levels 2, 4 and 62.
fn lower_tops(out: Stdout) -> io::Result<()> {
    outer(out, 0x4000_0000, Spacing::Equal, 2)?;
    outer(out, 0x4000_0001, Spacing::Equal, 2)?;
    outer(out, 0x4000_0000, Spacing::FractionalEven, 2)?;
    outer(out, 0x4000_0001, Spacing::FractionalEven, 2)?;
    outer(out, 0x3f80_0000, Spacing::FractionalOdd, 2)?;
    outer(out, 0x3f80_0001, Spacing::FractionalOdd, 2)?;
    outer(out, 0x4080_0000, Spacing::Equal, 4)?;
    outer(out, 0x4080_0001, Spacing::Equal, 4)?;
    outer(out, 0x4080_0000, Spacing::FractionalEven, 4)?;
    outer(out, 0x4080_0001, Spacing::FractionalEven, 4)?;
    outer(out, 0x4040_0000, Spacing::FractionalOdd, 4)?;
    outer(out, 0x4040_0001, Spacing::FractionalOdd, 4)?;
    outer(out, 0x4278_0000, Spacing::Equal, 62)?;
    outer(out, 0x4278_0001, Spacing::Equal, 62)?;
    outer(out, 0x4278_0000, Spacing::FractionalEven, 62)?;
    outer(out, 0x4278_0001, Spacing::FractionalEven, 62)?;
    outer(out, 0x4274_0000, Spacing::FractionalOdd, 62)?;
    outer(out, 0x4274_0001, Spacing::FractionalOdd, 62)?;
    Ok(())
}

// Two NaNs, the infinities, both zeros, and the smallest numbers above and below 0.
fn each_outer(out: Stdout, spacing: Spacing) -> io::Result<()> {
    for bits in [
        0x7fc0_0000,
        0xff80_0001,
        0x7f80_0000,
        0xff80_0000,
        0x0000_0000,
        0x8000_0000,
        0x0000_0001,
        0x8000_0001,
    ] {
        outer(out, bits, spacing, 64)?;
    }
    Ok(())
}

// Inner levels: 1 and just above, 0, a NaN, and 2.
fn each_inner(out: Stdout, spacing: Spacing) -> io::Result<()> {
    for bits in [
        0x3f80_0000,
        0x3f80_0001,
        0x0000_0000,
        0x7fc0_0000,
        0x4000_0000,
    ] {
        inner(out, bits, spacing, 64)?;
    }
    Ok(())
}

fn outer(out: Stdout, bits: u32, spacing: Spacing, top: u32) -> io::Result<()>
    requires { Top top }
{
    let level = level::level_of_bits(bits);
    let fate = if level::discards(level) {
        "discarded"
    } else {
        "kept"
    };
    let Clamped { segments, clamp } = level::segments_of(level, spacing, top);
    write_line(out, bits, spacing, top, fate, clamp, segments)
}

fn inner(out: Stdout, bits: u32, spacing: Spacing, top: u32) -> io::Result<()>
    requires { Top top }
{
    let Clamped { segments, clamp } = level::segments_of(level::level_of_bits(bits), spacing, top);
    write_line(
        out,
        bits,
        spacing,
        top,
        "inner",
        clamp,
        level::as_inner(segments, spacing),
    )
}

fn write_line(
    out: Stdout,
    bits: u32,
    spacing: Spacing,
    top: u32,
    fate: &str,
    clamp: Clamp,
    segments: Segments,
) -> io::Result<()> {
    let spacing = name_of_spacing(spacing);
    let clamp = name_of_clamp(clamp);
    let Segments { count, scaled } = segments;
    println!(out; "{bits:08x} {spacing} {top} {fate} {clamp} {count} {scaled}")?;
    Ok(())
}

fn name_of_spacing(spacing: Spacing) -> &'static str {
    match spacing {
        Spacing::Equal => "equal",
        Spacing::FractionalEven => "even",
        Spacing::FractionalOdd => "odd",
    }
}

fn name_of_clamp(clamp: Clamp) -> &'static str {
    match clamp {
        Clamp::Below => "below",
        Clamp::Inside => "inside",
        Clamp::Above => "above",
    }
}

// The numbers next to the least and the greatest top level, two between them, and the largest u32.
fn each_top(out: Stdout) -> io::Result<()> {
    for number in [0, 1, 2, 3, 4, 63, 64, 65, 66, 0xffff_ffff] {
        let verdict = if level::is_top(number) {
            "top"
        } else {
            "no top"
        };
        println!(out; "{number} {verdict}")?;
    }
    Ok(())
}
