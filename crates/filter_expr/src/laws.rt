//! Laws of the definitions that the contracts cite.

ghost use Rattle.filter_expr.specs.Grammar.{IsReadAsSpelled, SpellsOnce};

/// A word is read as an expression just where the grammar spells that expression so, and it spells no two.
pub fn grammar_is_read()
    ensures read { IsReadAsSpelled }
    ensures once { SpellsOnce }
{}
