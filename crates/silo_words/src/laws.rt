//! That the definitions of what words request hold for some words.

ghost use Rattle.silo_words.specs.Words.{TellsWordsApart};

/// Words that are written out request what a reader expects: steps, to answer, to serve, an audit, to migrate, rows, help or
/// the version, or they are refused.
pub fn words_are_told_apart()
    ensures { TellsWordsApart }
{}
