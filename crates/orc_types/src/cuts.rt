//! Texts that are cut at a character.
ghost use Rattle.std.specs.Prelude.{◌≡◌, ◌<◌, ◌∷◌, [], IfSome, MatchOption, is_some};
ghost use Rattle.std.specs.List.{slice_split, position, before_first, after_first};
ghost use Rattle.orc_types.specs.Texts.{is_char};
ghost use Rattle.orc_types.specs.inside.Cuts.{SplitsAt};

// The texts before the first such character, which is ASCII, and after it.
pub(crate) fn split_at(text: &str, separator: char) -> Option<(&str, &str)>
    requires { separator < 128 }
    ensures parts { MatchOption result (slice_split (is_char separator) text.now ≡ text.now ∷ [])
        (λ parts. SplitsAt separator text.now parts.0.now parts.1.now) }
    ensures some { is_some result ≡ is_some (position (is_char separator) text.now) }
    ensures first { IfSome result (λ parts. (parts.0.now ≡ before_first (is_char separator) text.now)
        × (parts.1.now ≡ after_first (is_char separator) text.now)) }
{
    text.split_once(separator)
}
