//! What every play of a script owes.
ghost use Rattle.script_play.specs.Headline.{Headline};

/// Each play of a script is right: each reply is the text of a lawful one, and each block has the rows of the table after the client's reach that its shape selects.
pub fn headline()
    ensures { Headline }
{
    core_run::answers_are_right();
    core_run::headline();
}
