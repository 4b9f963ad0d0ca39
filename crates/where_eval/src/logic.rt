//! Three-valued logic (PostgreSQL manual, chapter 9.1).
ghost use Rattle.std.specs.Prelude.{◌≡◌};
ghost use Rattle.where_eval.specs.Logic.{of_bool as tri_of_bool, not_of as not_of_tri, negated as negated_tri, or_of as or_tri, and_of as and_tri};

use shape_base::Tri;

/// True or false.
pub fn of_bool(holds: bool) -> Tri
    ensures { result ≡ tri_of_bool holds }
{
    if holds { Tri::True } else { Tri::False }
}

/// NOT of unknown is unknown.
pub fn not_of(tri: Tri) -> Tri
    ensures { result ≡ not_of_tri tri }
{
    match tri {
        Tri::True => Tri::False,
        Tri::False => Tri::True,
        Tri::Unknown => Tri::Unknown,
    }
}

/// NOT of it where the form is negated.
pub fn negated(not: bool, tri: Tri) -> Tri
    ensures { result ≡ negated_tri not tri }
{
    if not { not_of(tri) } else { tri }
}

/// OR of two.
pub fn or_of(left: Tri, right: Tri) -> Tri
    ensures { result ≡ or_tri left right }
{
    match left {
        Tri::True => Tri::True,
        Tri::False => right,
        Tri::Unknown => match right {
            Tri::True => Tri::True,
            _ => Tri::Unknown,
        },
    }
}

/// AND of two.
pub fn and_of(left: Tri, right: Tri) -> Tri
    ensures { result ≡ and_tri left right }
{
    match (left, right) {
        (Tri::False, _) => Tri::False,
        (_, Tri::False) => Tri::False,
        (Tri::True, Tri::True) => Tri::True,
        _ => Tri::Unknown,
    }
}
