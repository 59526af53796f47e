//! Reads a line by its number of words and by its first word.

ghost use Rattle.std.specs.Prelude.{◌≢◌, ◌∷◌, [], map, IfOk, codes};
ghost use Rattle.script_model.specs.Script.{words, IsInBounds};
ghost use Rattle.fleet_text.specs.Lines.{line_of};
ghost use Rattle.fleet_text.specs.Reading.{ReadsAs, line_text};

use crate::line::Line;
use crate::party_forms::{
    fault_from, finish_from, kill_from, numbered_from, options_from, output_from, released_from,
    settle_from, start_from, stop_from, together_from,
};
use crate::tree_forms::{
    drain_from, dump_from, flush_from, full_from, read_from, scan_from, submit_from, tables_from,
};
use crate::word::{fill_parts, is_word, number_of};
use std::alloc::{AllocError, Global};

fn one_from(verb: &[u8]) -> Option<Line>
    ensures { ReadsAs line_of words IsInBounds (verb.now ∷ []) result }
{
    if is_word(verb, "full") {
        return Some(Line::Full { segment: None });
    }
    if is_word(verb, "trees") {
        return Some(Line::Trees);
    }
    if is_word(verb, "jobs") {
        return Some(Line::Jobs);
    }
    if is_word(verb, "sweep") {
        return Some(Line::Sweep);
    }
    None
}

fn two_from(alloc: Global, verb: &[u8], word: &[u8]) -> Result<Option<Line>, AllocError>
    ensures { IfOk result (ReadsAs line_of words IsInBounds (verb.now ∷ word.now ∷ [])) }
{
    if is_word(verb, "full") {
        return full_from(alloc, word);
    }
    Ok(numbered_from(verb, word))
}

// Reads a line of three words that names no node and no segment.
fn parties_from(verb: &[u8], first: &[u8], second: &[u8]) -> Option<Line>
    requires tables { verb.now ≢ codes "tables" }
    requires dump { verb.now ≢ codes "dump" }
    requires drain { verb.now ≢ codes "drain" }
    ensures { ReadsAs line_of words IsInBounds (verb.now ∷ first.now ∷ second.now ∷ []) result }
{
    if is_word(verb, "finish") {
        return finish_from(first, second);
    }
    if is_word(verb, "start") {
        return start_from(first, second);
    }
    if is_word(verb, "kill") {
        return kill_from(first, second);
    }
    if is_word(verb, "stop") {
        return stop_from(first, second);
    }
    if is_word(verb, "fault") {
        return fault_from(first, second);
    }
    if is_word(verb, "together") {
        return together_from(first, second);
    }
    None
}

fn three_from(
    alloc: Global,
    verb: &[u8],
    first: &[u8],
    second: &[u8],
) -> Result<Option<Line>, AllocError>
    ensures { IfOk result
        (ReadsAs line_of words IsInBounds (verb.now ∷ first.now ∷ second.now ∷ [])) }
{
    if is_word(verb, "tables") {
        return tables_from(alloc, first, second);
    }
    if is_word(verb, "dump") {
        return dump_from(alloc, first, second);
    }
    if is_word(verb, "drain") {
        return drain_from(alloc, first, second);
    }
    Ok(parties_from(verb, first, second))
}

fn four_from(
    alloc: Global,
    verb: &[u8],
    first: &[u8],
    second: &[u8],
    third: &[u8],
) -> Result<Option<Line>, AllocError>
    ensures { IfOk result (ReadsAs line_of words IsInBounds
        (verb.now ∷ first.now ∷ second.now ∷ third.now ∷ [])) }
{
    if is_word(verb, "submit") {
        return submit_from(alloc, first, second, third);
    }
    if is_word(verb, "start") {
        return Ok(released_from(first, second, third));
    }
    if is_word(verb, "settle") {
        return Ok(settle_from(first, second, third));
    }
    Ok(None)
}

fn five_from(
    alloc: Global,
    verb: &[u8],
    first: &[u8],
    second: &[u8],
    third: &[u8],
    fourth: &[u8],
) -> Result<Option<Line>, AllocError>
    ensures { IfOk result (ReadsAs line_of words IsInBounds
        (verb.now ∷ first.now ∷ second.now ∷ third.now ∷ fourth.now ∷ [])) }
{
    if is_word(verb, "read") {
        return read_from(alloc, first, second, third, fourth);
    }
    if is_word(verb, "output") {
        return Ok(output_from(first, second, third, fourth));
    }
    Ok(None)
}

fn six_from(
    alloc: Global,
    verb: &[u8],
    first: &[u8],
    second: &[u8],
    third: &[u8],
    fourth: &[u8],
    fifth: &[u8],
) -> Result<Option<Line>, AllocError>
    ensures { IfOk result (ReadsAs line_of words IsInBounds
        (verb.now ∷ first.now ∷ second.now ∷ third.now ∷ fourth.now ∷ fifth.now ∷ [])) }
{
    if is_word(verb, "flush") {
        return flush_from(alloc, first, second, third, fourth, fifth);
    }
    Ok(None)
}

fn seven_from(
    alloc: Global,
    verb: &[u8],
    first: &[u8],
    second: &[u8],
    third: &[u8],
    fourth: &[u8],
    fifth: &[u8],
    sixth: &[u8],
) -> Result<Option<Line>, AllocError>
    ensures { IfOk result (ReadsAs line_of words IsInBounds (verb.now ∷ first.now ∷ second.now
        ∷ third.now ∷ fourth.now ∷ fifth.now ∷ sixth.now ∷ [])) }
{
    if is_word(verb, "scan") {
        return scan_from(alloc, first, second, third, fourth, fifth, sixth);
    }
    if is_word(verb, "options") {
        return Ok(options_from(first, second, third, fourth, fifth, sixth, None));
    }
    Ok(None)
}

fn eight_from(
    verb: &[u8],
    first: &[u8],
    second: &[u8],
    third: &[u8],
    fourth: &[u8],
    fifth: &[u8],
    sixth: &[u8],
    seventh: &[u8],
) -> Option<Line>
    ensures { ReadsAs line_of words IsInBounds (verb.now ∷ first.now ∷ second.now
        ∷ third.now ∷ fourth.now ∷ fifth.now ∷ sixth.now ∷ seventh.now ∷ []) result }
{
    if !is_word(verb, "options") {
        return None;
    }
    let retention = number_of(seventh)?;
    options_from(first, second, third, fourth, fifth, sixth, Some(retention))
}

// Reads a line from its words.
fn line_from(alloc: Global, fields: &[&[u8]]) -> Result<Option<Line>, AllocError>
    ensures { IfOk result
        (ReadsAs line_of words IsInBounds (map (λ field. field.now) fields.now)) }
{
    if fields.len() == 1 {
        return Ok(one_from(fields[0]));
    }
    if fields.len() == 2 {
        return two_from(alloc, fields[0], fields[1]);
    }
    if fields.len() == 3 {
        return three_from(alloc, fields[0], fields[1], fields[2]);
    }
    if fields.len() == 4 {
        return four_from(alloc, fields[0], fields[1], fields[2], fields[3]);
    }
    if fields.len() == 5 {
        return five_from(alloc, fields[0], fields[1], fields[2], fields[3], fields[4]);
    }
    if fields.len() == 6 {
        return six_from(
            alloc, fields[0], fields[1], fields[2], fields[3], fields[4], fields[5],
        );
    }
    if fields.len() == 7 {
        return seven_from(
            alloc, fields[0], fields[1], fields[2], fields[3], fields[4], fields[5], fields[6],
        );
    }
    if fields.len() == 8 {
        return Ok(eight_from(
            fields[0], fields[1], fields[2], fields[3], fields[4], fields[5], fields[6], fields[7],
        ));
    }
    Ok(None)
}

/// Reads a line without its newline. The answer is None if no line in bounds is spelt so. The error
/// is out of memory.
pub fn line_at(alloc: Global, text: &[u8]) -> Result<Option<Line>, AllocError>
    ensures { IfOk result (ReadsAs line_of line_text IsInBounds text.now) }
{
    line_by(alloc, &mut Vec::new(alloc), text)
}

/// Reads a line as `line_at` does. The list is for its words, so that one list serves many lines.
pub(crate) fn line_by<'a>(
    alloc: Global,
    words: &mut Vec<&'a [u8]>,
    text: &'a [u8],
) -> Result<Option<Line>, AllocError>
    ensures { IfOk result (ReadsAs line_of line_text IsInBounds text.now) }
{
    fill_parts(words, text, b' ')?;
    line_from(alloc, words.as_slice())
}
