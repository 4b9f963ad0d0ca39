//! What holds of all clauses and rows, over the definitions alone.
ghost use Rattle.where_eval.specs.Laws.{NotOfUnknownIsUnknown, NullIsUnknown, DeMorgan, TestsAreKnown, NegatedFormsAreNegations, InIsTheOrOfEqualities, BetweenIsTheAndOfComparisons, NoTruthWhereUnread};
ghost use Rattle.where_eval.specs.Like.{LikeIsTheRelation};

/// NOT of unknown is unknown.
pub fn not_of_unknown_is_unknown()
    ensures { NotOfUnknownIsUnknown }
{}

/// A null bool and unknown are the same.
pub fn null_is_unknown()
    ensures { NullIsUnknown }
{}

/// NOT of an AND is the OR of the NOTs, and NOT of an OR the AND of them.
pub fn de_morgan()
    ensures { DeMorgan }
{}

/// IS NULL, IS TRUE, IS FALSE, IS UNKNOWN, IS DISTINCT FROM and their negations are never unknown.
pub fn tests_are_known()
    ensures { TestsAreKnown }
{}

/// NOT IN, NOT BETWEEN, NOT LIKE and IS NOT are NOT of IN, BETWEEN, LIKE and IS.
pub fn negated_forms_are_negations()
    ensures { NegatedFormsAreNegations }
{}

/// IN is the OR of the equalities, where the left side has a type of its own.
pub fn in_is_the_or_of_equalities()
    ensures { InIsTheOrOfEqualities }
{}

/// BETWEEN is the AND of two comparisons, where the left side has a type of its own.
pub fn between_is_the_and_of_comparisons()
    ensures { BetweenIsTheAndOfComparisons }
{}

/// The test of LIKE is its relation, for each pattern that does not end inside an escape.
pub fn like_is_the_relation()
    ensures { LikeIsTheRelation }
{}

/// A row has no truth exactly where a column that the clause names holds a text without a value.
pub fn no_truth_where_unread()
    ensures { NoTruthWhereUnread }
{}
