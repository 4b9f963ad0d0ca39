//! The laws of the relation, each the contract of a function with nothing to do.
ghost use Rattle.where_tokens.specs.TokenTexts.{ScanSteps, TokenStands};

/// The token that is found at a place is the one that stands there, and no other does.
pub fn token_stands()
    ensures { TokenStands }
{}

/// Scanning goes from token to token, with white space between them, to the end or the first byte that begins none.
pub fn scan_steps()
    ensures { ScanSteps }
{}
