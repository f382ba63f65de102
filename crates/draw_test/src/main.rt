// Draws the examples of the rules into lists with enough room, with one word too few, and with sentinel words after the counts;
// writes the answers and every word of both lists. Measures patches whose levels lie outside their range, and tries other top levels.
#![tactic(auto)]

ghost use Rattle.std.specs.Prelude.{◌≤◌};

use level::{Clamp, Spacing};
use level_clamps::Clamps;
use measure::cut::NotDrawn;
use measure::measure;
use measure::size::Size;
use patch::kinds::Patch;
use patch::settings::{DomainOrigin, Settings, VertexOrder};
use std::fmt::Display;
use std::io::{self, Print, Stdout};
use tessellate::draw::{draw_indices, draw_points};
use tessellate::refusal::DrawRefusal;

fn main(rt: HostRuntime) -> io::Result<()> {
    let out = rt.stdout();
    each_room(out, triangles(2.0), 12, 9)?;
    each_room(out, triangles(3.0), 18, 21)?;
    each_room(out, quads(), 18, 18)?;
    each_room(out, isolines(3.0), 27, 12)?;
    each_room(out, isolines(0.0), 27, 12)?;
    draw_into(
        out,
        triangles(2.0),
        settings(VertexOrder::Clockwise, false),
        12,
        9,
    )?;
    draw_into(
        out,
        triangles(2.0),
        settings(VertexOrder::CounterClockwise, true),
        12,
        9,
    )?;
    each_clamp(out)?;
    each_top(out)
}

// Levels below, inside and above the range of odd spacing; the number of isolines has equal spacing.
fn each_clamp(out: Stdout) -> io::Result<()> {
    let odd = odd_up_to(64);
    let quads = Patch::Quads {
        outer0: 0.5,
        outer1: 63.0,
        outer2: 64.0,
        outer3: 1.0,
        inner0: 0.0 / 0.0,
        inner1: 63.5,
    };
    write_size(out, measure(quads, odd))?;
    let isolines = Patch::Isolines {
        outer0: 64.0,
        outer1: 64.0,
    };
    write_size(out, measure(isolines, odd))
}

// Smaller top levels, and numbers that are not top levels: a bad top level comes before every other answer, and every list stays unchanged.
fn each_top(out: Stdout) -> io::Result<()> {
    write_size(out, measure(triangles(3.0), odd_up_to(2)))?;
    draw_into(out, triangles(3.0), odd_up_to(2), 9, 3)?;
    write_size(out, measure(triangles(9.0), odd_up_to(4)))?;
    write_size(out, measure(isolines(0.0), odd_up_to(3)))?;
    draw_into(out, isolines(0.0), odd_up_to(0), 0, 0)?;
    draw_into(out, triangles(2.0), odd_up_to(66), 12, 9)
}

fn odd_up_to(top: u32) -> Settings {
    Settings {
        spacing: Spacing::FractionalOdd,
        top,
        order: VertexOrder::CounterClockwise,
        origin: DomainOrigin::LowerLeft,
        point_mode: false,
    }
}

fn triangles(inner0: f32) -> Patch {
    Patch::Triangles {
        outer0: 1.0,
        outer1: 1.0,
        outer2: 1.0,
        inner0,
    }
}

fn quads() -> Patch {
    Patch::Quads {
        outer0: 1.0,
        outer1: 1.0,
        outer2: 1.0,
        outer3: 1.0,
        inner0: 1.0,
        inner1: 3.0,
    }
}

fn isolines(outer0: f32) -> Patch {
    Patch::Isolines {
        outer0,
        outer1: 2.0,
    }
}

fn settings(order: VertexOrder, point_mode: bool) -> Settings {
    Settings {
        spacing: Spacing::Equal,
        top: 64,
        order,
        origin: DomainOrigin::LowerLeft,
        point_mode,
    }
}

// With exactly v and i words of room, with one word less in each list, with no room, and with more room.
fn each_room(out: Stdout, patch: Patch, v: usize, i: usize) -> io::Result<()>
    requires { (1 ≤ v) × (v ≤ 30) × (1 ≤ i) × (i ≤ 30) }
{
    let usual = settings(VertexOrder::CounterClockwise, false);
    write_size(out, measure(patch, usual))?;
    draw_into(out, patch, usual, v, i)?;
    draw_into(out, patch, usual, v - 1, i)?;
    draw_into(out, patch, usual, v, i - 1)?;
    draw_into(out, patch, usual, v - 1, i - 1)?;
    draw_into(out, patch, usual, v + 2, i + 2)
}

// Draws points and indices into the first v and i words of two lists of 32 sevens, and writes both lists in full.
fn draw_into(out: Stdout, patch: Patch, settings: Settings, v: usize, i: usize) -> io::Result<()>
    requires { (v ≤ 32) × (i ≤ 32) }
{
    let mut vertices = [7u32; 32];
    let mut indices = [7u16; 32];
    let drawn = draw_points(patch, settings, &mut vertices[0..v]);
    write_answer(out, "points", drawn)?;
    let drawn = draw_indices(patch, settings, &mut indices[0..i]);
    write_answer(out, "indices", drawn)?;
    write_words(out, &vertices)?;
    write_words(out, &indices)
}

fn write_size(out: Stdout, answer: Result<Size, NotDrawn>) -> io::Result<()> {
    match answer {
        Ok(size) => {
            println!(out; "measured points {}", size.points)?;
            println!(out; "measured indices {}", size.indices)?;
            write_clamps(out, size.clamps)
        }
        Err(NotDrawn::Discarded) => println!(out; "measured discarded"),
        Err(NotDrawn::BadTop) => println!(out; "measured bad top"),
    }
}

// Writes where each level that counts lies, outer levels first.
fn write_clamps(out: Stdout, clamps: Clamps) -> io::Result<()> {
    match clamps {
        Clamps::Triangles {
            outer0,
            outer1,
            outer2,
            inner0,
        } => write_each(out, &[outer0, outer1, outer2, inner0]),
        Clamps::Quads {
            outer0,
            outer1,
            outer2,
            outer3,
            inner0,
            inner1,
        } => write_each(out, &[outer0, outer1, outer2, outer3, inner0, inner1]),
        Clamps::Isolines { outer0, outer1 } => write_each(out, &[outer0, outer1]),
    }
}

fn write_each(out: Stdout, clamps: &[Clamp]) -> io::Result<()> {
    for clamp in clamps {
        match clamp {
            Clamp::Below => println!(out; "below")?,
            Clamp::Inside => println!(out; "inside")?,
            Clamp::Above => println!(out; "above")?,
        }
    }
    Ok(())
}

// Writes the answer of drawing the `kind`, points or indices.
fn write_answer(out: Stdout, kind: &str, answer: Result<u32, DrawRefusal>) -> io::Result<()> {
    match answer {
        Ok(count) => println!(out; "{kind} drawn {count}"),
        Err(DrawRefusal::Discarded) => println!(out; "{kind} discarded"),
        Err(DrawRefusal::NoRoomForVertices) => println!(out; "no room for vertices"),
        Err(DrawRefusal::NoRoomForIndices) => println!(out; "no room for indices"),
        Err(DrawRefusal::BadTop) => println!(out; "{kind} bad top"),
    }
}

// Writes the words of a list in one line.
fn write_words<T: Display>(out: Stdout, words: &[T]) -> io::Result<()> {
    for word in words {
        print!(out; " {word}")?;
    }
    println!(out)
}
