//! Which lines the program serves.

ghost use Rattle.std.specs.Prelude.{◌≡◌};
ghost use Rattle.fleet_text.specs.Lines.{line_of};
ghost use Rattle.fleet_text.specs.Served.{may_stand};

use crate::line::Line;

/// Whether the program serves the line there: as the first line of a script, or as a later one.
pub fn may_stand(line: &Line, is_first: bool) -> bool
    ensures { result ≡ may_stand is_first (line_of line.now) }
{
    match line {
        Line::Options { .. } => is_first,
        Line::Together { .. } => false,
        _ => true,
    }
}
