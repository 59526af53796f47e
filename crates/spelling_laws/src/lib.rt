//! The law that each text is one of two: a script, or a text with a first bad line. The function has
//! an empty body, and its clauses are the law for each grammar.
#![tactic(auto)]

ghost use Rattle.script_model.specs.Grammars.{full_grammar, served_grammar};
ghost use Rattle.spelling_laws.specs.Laws.{OneOfThem};

/// Each text is a script, or has a first bad line. The law gives the lines of the script, or the
/// number of the bad line.
pub fn a_text_is_one_of_them()
    ensures full { OneOfThem full_grammar }
    ensures served { OneOfThem served_grammar }
{}
