//! The law of tokens and texts, the contract of a function with nothing to do.
ghost use Rattle.where_lexer.specs.Texts.{TextAgain};

/// The canonical text of tokens has these tokens.
pub fn text_again()
    ensures { TextAgain }
{}
