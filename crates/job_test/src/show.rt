// Writes answers as text.
use job::header::{Header, HeaderError};
use job::next::{FoundRecord, RecordError};
use job::record::{Record, patch_of, settings_of};
use job_fields::levels::Levels;
use level::{Spacing, segments_of};
use patch::kinds::Patch;
use patch::settings::{DomainOrigin, Settings, VertexOrder};
use std::io::{self, Print, Stdout};

pub(crate) fn write_header(out: Stdout, header: Result<Header, HeaderError>) -> io::Result<()> {
    match header {
        Ok(read) => {
            let number = u32::from(read.version);
            println!(out; "version {number}, next at {}", read.next.at)?;
        }
        Err(HeaderError::NotAJob) => {
            println!(out; "not a job (5)")?;
        }
        Err(HeaderError::UnknownVersion) => {
            println!(out; "unknown version (6)")?;
        }
    }
    Ok(())
}

pub(crate) fn write_answer(
    out: Stdout,
    answer: Result<Option<FoundRecord>, RecordError>,
) -> io::Result<()> {
    match answer {
        Ok(Some(there)) => {
            write_record(out, there.record)?;
            println!(out; "  next at {}", there.next.at)?;
        }
        Ok(None) => {
            println!(out; "end")?;
        }
        Err(RecordError::CutRecord) => {
            println!(out; "cut record (7)")?;
        }
        Err(RecordError::UnknownSetting { place, next }) => {
            println!(out; "unknown setting (8) at place {place}, next at {}", next.at)?;
        }
    }
    Ok(())
}

fn write_record(out: Stdout, record: Record) -> io::Result<()> {
    let settings = settings_of(record);
    write_patch(out, patch_of(record), settings.spacing)?;
    write_settings(out, settings)?;
    write_bits(out, record.bits)?;
    Ok(())
}

// Writes the kind, and the segments of each level that counts.
fn write_patch(out: Stdout, patch: Patch, spacing: Spacing) -> io::Result<()> {
    match patch {
        Patch::Triangles {
            outer0,
            outer1,
            outer2,
            inner0,
        } => {
            print!(out; "triangles, segments")?;
            write_levels(out, &[outer0, outer1, outer2], spacing)?;
            print!(out; ", inner")?;
            write_levels(out, &[inner0], spacing)?;
        }
        Patch::Quads {
            outer0,
            outer1,
            outer2,
            outer3,
            inner0,
            inner1,
        } => {
            print!(out; "quads, segments")?;
            write_levels(out, &[outer0, outer1, outer2, outer3], spacing)?;
            print!(out; ", inner")?;
            write_levels(out, &[inner0, inner1], spacing)?;
        }
        Patch::Isolines { outer0, outer1 } => {
            print!(out; "isolines, segments")?;
            write_levels(out, &[outer0, outer1], spacing)?;
        }
    }
    println!(out; "")?;
    Ok(())
}

// Writes the segments of each level, with the top level 64.
fn write_levels(out: Stdout, levels: &[f32], spacing: Spacing) -> io::Result<()> {
    for level in levels {
        let clamped = segments_of(*level, spacing, 64);
        print!(out; " {}", clamped.segments.count)?;
    }
    Ok(())
}

fn write_settings(out: Stdout, settings: Settings) -> io::Result<()> {
    let spacing = name_of_spacing(settings.spacing);
    let order = name_of_order(settings.order);
    let origin = name_of_origin(settings.origin);
    let points = if settings.point_mode {
        "points"
    } else {
        "no points"
    };
    println!(out;
        "  {spacing}, {order}, {origin}, {points}, top {}",
        settings.top
    )?;
    Ok(())
}

fn name_of_spacing(spacing: Spacing) -> &'static str {
    match spacing {
        Spacing::Equal => "equal",
        Spacing::FractionalEven => "even",
        Spacing::FractionalOdd => "odd",
    }
}

fn name_of_order(order: VertexOrder) -> &'static str {
    match order {
        VertexOrder::Clockwise => "clockwise",
        VertexOrder::CounterClockwise => "counter-clockwise",
    }
}

fn name_of_origin(origin: DomainOrigin) -> &'static str {
    match origin {
        DomainOrigin::UpperLeft => "upper-left",
        DomainOrigin::LowerLeft => "lower-left",
    }
}

fn write_bits(out: Stdout, bits: Levels<u32>) -> io::Result<()> {
    print!(out; "  bits")?;
    for pattern in [
        bits.outer0,
        bits.outer1,
        bits.outer2,
        bits.outer3,
        bits.inner0,
        bits.inner1,
    ] {
        print!(out; " {pattern:08x}")?;
    }
    println!(out; "")?;
    Ok(())
}
