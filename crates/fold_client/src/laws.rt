//! The laws of the folding client, each the contract of a function with nothing to do.
ghost use Rattle.fold_client.specs.Laws.{ClientLaw, NeverBack};
ghost use Rattle.fold_client.specs.TargetRead.{TargetIsReadBack};

/// What a client that takes fair replies holds, whatever came before.
pub fn client_law()
    ensures { ClientLaw }
{}

/// A client never comes back to a handle that it left, nor to one before it.
pub fn never_back()
    ensures { NeverBack }
{}

/// The server reads the target of a client back to the query's table, columns and clause, the present handle, the offset,
/// and the cursor of an up-to-date reply.
pub fn target_is_read_back()
    ensures { TargetIsReadBack }
{}
