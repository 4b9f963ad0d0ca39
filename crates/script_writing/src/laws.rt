//! The laws over the definitions, each the contract of a function with nothing to do.
ghost use Rattle.script_writing.specs.Laws.{RecordsAreReadBack, ScriptsAreReadBack, ItemsAreWritten};

/// A record that fits is read back from its bytes, whatever follows them.
pub fn records_are_read_back()
    ensures { RecordsAreReadBack }
{}

/// A script of records that fit is read back as these records.
pub fn scripts_are_read_back()
    ensures { ScriptsAreReadBack }
{}

/// Each item that asks for a record is the one that is written of it. So a record that does not fit
/// is asked for by none.
pub fn items_are_written()
    ensures { ItemsAreWritten }
{}
