//! The laws over the definitions of texts, each the contract of a function with nothing to do.
ghost use Rattle.http_edge.specs.TextLaws.{ReplyTextsTell, ReplyIsReadBack};

/// Bytes that begin with the texts of two replies begin with one: the same reply, the same word on the connection, and
/// the same bytes behind it.
pub fn reply_texts_tell()
    ensures { ReplyTextsTell }
{}

/// A reply's text is read back as that reply, whatever follows, or memory is wanted.
pub fn reply_is_read_back()
    ensures { ReplyIsReadBack }
{}
