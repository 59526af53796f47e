//! Laws about generated scripts. Each function has an empty body, and its clauses are laws.

ghost use Rattle.fleet_generate.specs.Laws.{GeneratedCount, GeneratedIsScript, GeneratedKinds};

/// A generated script of at most 2,000 rounds is a script of the full grammar. Each of its lines
/// starts a party, flushes, submits, polls, claims, finishes or reads. It has nine lines for each
/// round, after two.
pub fn generated_scripts_are_scripts()
    ensures script { GeneratedIsScript }
    ensures kinds { GeneratedKinds }
    ensures count { GeneratedCount }
{}
