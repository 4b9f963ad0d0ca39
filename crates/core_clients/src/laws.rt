//! The laws of queries, each the contract of a function with nothing to do.
ghost use Rattle.core_clients.specs.Laws.{FormsTell, QueriesHaveForms};

/// Bytes are the web form of at most one query.
pub fn forms_tell()
    ensures { FormsTell }
{}

/// Each query has a web form: the one with which its client's targets begin.
pub fn queries_have_forms()
    ensures { QueriesHaveForms }
{}
