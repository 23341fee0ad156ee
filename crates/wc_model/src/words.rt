ghost use Rattle.std.specs.Prelude.{◌≡◌};
ghost use Rattle.wc_model.specs.Language.Declarations.{same_name};
ghost use Rattle.wc_model.specs.Language.Names.{name_of};

/// Whether the text is that word. Letter case is not significant.
pub fn is_word(text: &[u8], word: &[u8]) -> bool
    ensures here { result ≡ same_name (name_of text.now) (name_of word.now) }
    ensures there { result ≡ same_name (name_of word.now) (name_of text.now) }
{
    text.eq_ignore_ascii_case(word)
}
