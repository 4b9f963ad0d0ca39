//! The laws over the definitions, each the contract of a function with nothing to do.
ghost use Rattle.http_edge.specs.HeadLaws.{HeadsTell};
ghost use Rattle.http_edge.specs.Laws.{LawfulIsFair, FairStays};
ghost use Rattle.http_edge.specs.RouteLaws.{RoutesTell};

/// In a good history a lawful reply is fair.
pub fn lawful_is_fair()
    ensures { LawfulIsFair }
{}

/// A reply that was fair stays so, whatever happens to the registry later.
pub fn fair_stays()
    ensures { FairStays }
{}

/// The bytes determine how the head that they begin with is answered, unless memory is wanted.
pub fn heads_tell()
    ensures { HeadsTell }
{}

/// A request and the served tables determine what the request is answered, unless memory is wanted.
pub fn routes_tell()
    ensures { RoutesTell }
{}
