//! The file that the words name.
ghost use Rattle.std.specs.Prelude.{◌≡◌, map, option_map};
ghost use Rattle.std.specs.String.{string_bytes};
ghost use Rattle.orc_words.specs.Words.{journal_word};

/// The file that the words name: what stands after the first of them that is `--journal` or begins
/// with `--journal=`. It doesn't look whether the words are ones that the program takes.
pub fn journal_word(words: &[String]) -> Option<&str>
    ensures { option_map (λ file. file.now) result ≡ journal_word (map (λ w. string_bytes w) words.now) }
{
    let mut rest = words;
    while let Some((word, more)) = rest.split_first() {
        if word.as_str() == "--journal" {
            return more.first().map(|file| file.as_str());
        }
        if let Some(file) = word.as_str().strip_prefix("--journal=") {
            return Some(file);
        }
        rest = more;
    }
    None
}
