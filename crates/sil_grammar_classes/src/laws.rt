//! What spelling tells apart: a law about the definitions of this crate, which has no code that runs.

ghost use Rattle.sil_grammar_classes.specs.inner.Laws.{AreAtWordsSpelled, AreKeywordsSpelled, ArePunctuationSpelled, HaveOwnSpellings};
ghost use Rattle.sil_grammar_classes.specs.Spelling.{at_spelling, punctuation_spelling, spelling};

/// A word is a keyword just where it is spelled so, as a name with `@` and punctuation are; and no two of them are spelled alike.
pub fn words_are_told()
    ensures keywords { AreKeywordsSpelled }
    ensures at_words { AreAtWordsSpelled }
    ensures punctuation { ArePunctuationSpelled }
    ensures own_keywords { HaveOwnSpellings spelling }
    ensures own_at_words { HaveOwnSpellings at_spelling }
    ensures own_punctuation { HaveOwnSpellings punctuation_spelling }
{}
