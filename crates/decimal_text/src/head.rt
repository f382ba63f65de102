// The lines that contain words.
ghost use Rattle.std.specs.Prelude.{[], ◌∷◌, ◌++◌, ◌+◌, ◌≤◌, length};
ghost use Rattle.buffer.specs.Over.{Wrote};
ghost use Rattle.decimal_text.specs.Heads.{title_line, drawn_line, discarded_line, refused_line};
ghost use Rattle.decimal_text.specs.Lines.{line};

use crate::line::{put_line1, put_line2};

// Writes a line of a word and a number.
fn put_worded(out: &mut [u8], at: usize, word: &[u8], n: u32) -> usize
    requires { at + length word.now + 11 ≤ length out.old }
    ensures wrote { Wrote out.old at (word.now ++ line (n ∷ [])) out.new result }
    ensures upper_bound { result ≤ at + length word.now + 11 }
{
    let w = buffer::put_all(out, at, word);
    put_line1(out, w, n)
}

// Writes the title: the first line of the output, with the version of the job file.
pub fn put_title(out: &mut [u8], at: usize, version: u32) -> usize
    requires { at + 15 ≤ length out.old }
    ensures wrote { Wrote out.old at (title_line version) out.new result }
    ensures upper_bound { result ≤ at + 15 }
{
    put_worded(out, at, b"TSJ ", version)
}

// Writes the first line of a drawn record.
pub fn put_drawn(out: &mut [u8], at: usize, points: u32, indices: u32) -> usize
    requires { at + 28 ≤ length out.old }
    ensures wrote { Wrote out.old at (drawn_line points indices) out.new result }
    ensures upper_bound { result ≤ at + 28 }
{
    let w = buffer::put_all(out, at, b"drawn ");
    put_line2(out, w, points, indices)
}

// Writes the line of a discarded record.
pub fn put_discarded(out: &mut [u8], at: usize) -> usize
    requires { at + 10 ≤ length out.old }
    ensures { Wrote out.old at discarded_line out.new result }
{
    buffer::put_all(out, at, b"discarded\n")
}

// Writes the line of a refused record, with the number of the refusal.
pub fn put_refused(out: &mut [u8], at: usize, n: u32) -> usize
    requires { at + 19 ≤ length out.old }
    ensures wrote { Wrote out.old at (refused_line n) out.new result }
    ensures upper_bound { result ≤ at + 19 }
{
    put_worded(out, at, b"refused ", n)
}
