//! Reads a whole script.

ghost use Rattle.std.specs.Prelude.{◌≡◌, ◌==◌, ℕ, ◌+◌, List, length, IfOk, Err, ◌⊎◌, IfErr};
ghost use Rattle.script_model.specs.Script.{IsScript, IsBadAt};
ghost use Rattle.script_model.specs.Script as model;
ghost use Rattle.script_model.specs.Grammars.{served_grammar};
ghost use Rattle.fleet_text.specs.Lines.{line_of, lines_of};
ghost use Rattle.fleet_text.specs.Reading.{ReadsAs, line_text};
ghost use Rattle.fleet_text.specs.Served.{MayStand};

use crate::TextError;
use crate::forms::line_by;
use crate::line::{Line, LineList};
use crate::served_lines::may_stand;
use crate::word::cut;
use std::alloc::{AllocError, Global};

/// Reads the lines of a script. Each line ends with a newline, so bytes after the last newline are
/// a bad line.
pub fn read_script(alloc: Global, text: &[u8]) -> Result<LineList, TextError>
    ensures found { IfOk result (λ lines. IsScript served_grammar text.now (lines_of lines)) }
    ensures bad { (n : ℕ) → result ≡ Err (TextError.BadLine n) → IsBadAt served_grammar text.now n }
    // If a line is the first outside the grammar, the error names it, except when out of memory.
    ensures exact { (n : ℕ) → IsBadAt served_grammar text.now n
        → (result ≡ Err (TextError.BadLine n)) ⊎ (result ≡ Err TextError.Memory) }
    // A script is read, except when out of memory.
    ensures valid { (lines : List model.Line)
        → IsScript served_grammar text.now lines → IfErr result (λ e. e ≡ TextError.Memory) }
{
    read_lines(alloc, text)
}

fn read_lines(alloc: Global, text: &[u8]) -> Result<LineList, TextError>
    ensures found { IfOk result (λ lines. IsScript served_grammar text.now (lines_of lines)) }
    ensures bad { (n : ℕ) → result ≡ Err (TextError.BadLine n) → IsBadAt served_grammar text.now n }
{
    let mut lines = Vec::new(alloc);
    let mut words = Vec::new(alloc);
    let mut rest = text;
    'lines: while let Some((front, after)) = cut(rest, b'\n') {
        let Some(line) = line_after(alloc, &mut words, front, are_none(lines.as_slice()))? else {
            return Err(bad_after(&lines));
        };
        lines.push(line)?;
        rest = after;
    }
    if !rest.is_empty() {
        return Err(bad_after(&lines));
    }
    Ok(LineList::from_vec(lines))
}

// Reads a line that the program serves, as the first line of a script or as a later one. The list
// is for its words.
fn line_after<'a>(
    alloc: Global,
    words: &mut Vec<&'a [u8]>,
    text: &'a [u8],
    is_first: bool,
) -> Result<Option<Line>, AllocError>
    ensures { IfOk result (ReadsAs line_of line_text (MayStand is_first) text.now) }
{
    let Some(line) = line_by(alloc, words, text)? else {
        return Ok(None);
    };
    if !may_stand(&line, is_first) {
        return Ok(None);
    }
    Ok(Some(line))
}

// Whether there are no lines.
fn are_none(lines: &[Line]) -> bool
    ensures { result ≡ (length lines.now == 0) }
{
    lines.is_empty()
}

// The error for the line after these lines.
fn bad_after(lines: &[Line]) -> TextError
    ensures { result ≡ TextError.BadLine (length lines.now + 1) }
{
    TextError::BadLine(lines.len() as u64 + 1)
}
