//! The laws of the grammar, each the contract of a function with nothing to do.
ghost use Rattle.where_grammar.specs.Again.{RoundTrip};
ghost use Rattle.where_grammar.specs.Cases.{ByCases};
ghost use Rattle.where_grammar.specs.Clause.{OneCanonicalText, OneTree, PrintedAgain};
ghost use Rattle.where_grammar.specs.Meaning.{Exact, OneAnswer, Whole};

/// What reading answers to a list of tokens is right.
pub fn exact()
    ensures { Exact }
{}

/// A list of tokens has one right answer.
pub fn one_answer()
    ensures { OneAnswer }
{}

/// What is in the grammar is read.
pub fn whole()
    ensures { Whole }
{}

/// The canonical tokens of a tree are read as that tree.
pub fn round_trip()
    ensures { RoundTrip }
{}

/// The canonical text of a tree that has a text is a text of that tree, nested no deeper.
pub fn printed_again()
    ensures { PrintedAgain }
{}

/// A text has one tree at most.
pub fn one_tree()
    ensures { OneTree }
{}

/// Two texts have one canonical text exactly where their trees are equal.
pub fn one_canonical_text()
    ensures { OneCanonicalText }
{}

/// The grammar by its alternatives is the grammar by which clauses are read.
pub fn by_cases()
    ensures { ByCases }
{}
