//! The law over rows that were taken, as the contract of a function with nothing to do.
ghost use Rattle.shape_snapshot.specs.Laws.{TakenRowsAreGood};

/// Rows that were taken are as wide as the definition, and have truths and no null key value; and the texts of their entries keep to the limit of a log.
pub fn taken_rows_are_good()
    ensures { TakenRowsAreGood }
{}
