//! The law of readings, as the contract of a function with nothing to do.
ghost use Rattle.sync_core.specs.Laws.{ReadingsTell};

use core_clients::laws::forms_tell;
use http_edge::laws::{heads_tell, routes_tell};

/// An event comes to one thing: what it is for the server and its clients is determined by its bytes and by the situation in which it comes.
pub fn readings_tell()
    ensures { ReadingsTell }
{
    heads_tell();
    routes_tell();
    forms_tell();
}
