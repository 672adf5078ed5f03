//! What holds of all names.
ghost use Rattle.std.specs.Prelude.{◌≡◌, ◌∷◌, ◌++◌, ℕ, List, true};
ghost use Rattle.merge_types.specs.Names.{is_name_text};
ghost use Rattle.merge_filter.specs.Words.{IsFrontWord};
ghost use Rattle.merge_filter.specs.declared.word.Word.TheVariants.{Name};

/// Each name that a publication may give can be written in a filter: in brackets it is read as that
/// name, keyword or not, at each place and whatever stands behind it.
pub fn bracketed_names_are_words()
    ensures { (name rest : List ℕ) (place : ℕ) → is_name_text name ≡ true → IsFrontWord place (91 ∷ (name ++ 93 ∷ rest)) (Name name) }
{}
