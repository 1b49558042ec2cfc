//! The words of the command line.
ghost use Rattle.std.specs.Prelude.{◌≡◌, bytes_eq, codes, map, string_bytes};
ghost use Rattle.admission_run.specs.Words.{setting_named, setting_of};

use schema_tree::Setting;

/// The setting that the words after the program's name ask for: none of them, or `--null-absent` alone. Other words ask
/// for nothing.
pub fn setting_of_words(words: &[String]) -> Option<Setting>
    ensures { result ≡ setting_of (map string_bytes words.now) }
{
    match words {
        [] => Some(Setting::Strict),
        [word] => setting_of_word(word),
        _ => None,
    }
}

fn setting_of_word(word: &str) -> Option<Setting>
    ensures { result ≡ setting_named word.now }
{
    is_null_absent(word).then_some(Setting::NullAbsent)
}

fn is_null_absent(word: &str) -> bool
    ensures { result ≡ bytes_eq word.now (codes "--null-absent") }
{
    word == "--null-absent"
}
