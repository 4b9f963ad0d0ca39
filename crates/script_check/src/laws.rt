//! The laws over the definitions, each the contract of a function with nothing to do.
ghost use Rattle.script_check.specs.Laws.{HonestIsHonest, DishonestIsRefused, KeptIsDeclared};

/// A snapshot that a check takes for honest is honest for that step, whatever commit was taken before it.
pub fn honest_is_honest()
    ensures { HonestIsHonest }
{}

/// A snapshot that is refused by a cause is honest for no step.
pub fn dishonest_is_refused()
    ensures { DishonestIsRefused }
{}

/// After steps that keep the definitions each table has the declared one.
pub fn kept_is_declared()
    ensures { KeptIsDeclared }
{}
