//! The laws over the definitions, each the contract of a function with nothing to do.
ghost use Rattle.shape_def.specs.Identity.{IdentitiesTell};
ghost use Rattle.shape_def.specs.Laws.{AnswersFollowTheGrammar};

/// Two identities are equal exactly where the namespaces, the names of the tables, the sets of
/// chosen columns and the clauses are equal, columns and clauses where they are present.
pub fn identities_tell()
    ensures { IdentitiesTell }
{}

/// The answer by which the truth of rows and the refusals of clauses are defined is the clause grammar's: a text
/// answers a tree exactly where the grammar has that tree for it, and a refusal exactly where the grammar has that
/// fault at that place.
pub fn answers_follow_the_grammar()
    ensures { AnswersFollowTheGrammar }
{}
