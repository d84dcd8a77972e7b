//! Laws of the grammar. Each function does nothing, and its contract is the law.
ghost use Rattle.art_lines.specs.Laws.{ReadingIsSpelling, SpellsOneCommand};

/// What the replies and the records after a line read of it is the command that it spells. So who believes the grammar
/// need not believe the reading.
pub fn reading_is_spelling()
    ensures { ReadingIsSpelling }
{}

/// No line spells two commands.
#[tactic(auto, using(crate::proofs::Spelling::spells_one))]
pub fn spells_one_command()
    ensures { SpellsOneCommand }
{}
