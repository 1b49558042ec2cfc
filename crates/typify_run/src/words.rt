//! The words of the command line.
ghost use Rattle.std.specs.Prelude.{◌≡◌, ◌≤◌, ◌-◌, map, string_bytes, true, IfSome, IsTrue};
ghost use Rattle.typify_run.specs.Words.{command_of, depth_in as depth_in_of, depth_said, depth_of as depth_read, is_digit as is_digit_of, is_leading as is_leading_of, is_null_absent as is_null_absent_of, setting_said, up_to};

use schema_tree::Setting;

/// What the words ask for.
#[derive(Clone, Copy)]
pub(crate) enum Command {
    /// Verdicts on the values.
    Check,
    /// The texts of the items.
    Items,
}

/// What the words ask for, at which depth, and under which setting.
#[derive(Clone, Copy)]
pub(crate) struct Asked {
    pub command: Command,
    pub depth: u32,
    pub setting: Setting,
}

/// The depth that `check DEPTH` or `items DEPTH` names, a number from 1 to 512, alone or with `--null-absent` behind it; nothing for any other words.
pub(crate) fn depth_of_words(words: &[String]) -> Option<u32>
    ensures exact { result ≡ depth_said (map string_bytes words.now) }
    ensures within { IfSome result (λ n. 1 ≤ n) }
{
    match words {
        [word, depth] => depth_in(word, depth),
        [word, depth, option] => {
            if is_null_absent(option) {
                depth_in(word, depth)
            } else {
                None
            }
        }
        _ => None,
    }
}

/// What the words ask for, where they are some of the forms.
pub(crate) fn command_of_words(words: &[String]) -> Command
    ensures { result ≡ command_of (map string_bytes words.now) }
{
    match words {
        [word, ..] => {
            if word.as_str() == "items" {
                Command::Items
            } else {
                Command::Check
            }
        }
        [] => Command::Check,
    }
}

/// The setting that the words ask for, where they are some of the forms: `NullAbsent` where the third is `--null-absent`.
pub fn setting_of_words(words: &[String]) -> Setting
    ensures { result ≡ setting_said (map string_bytes words.now) }
{
    match words {
        [_, _, option, ..] => {
            if is_null_absent(option) {
                Setting::NullAbsent
            } else {
                Setting::Strict
            }
        }
        _ => Setting::Strict,
    }
}

/// Whether the word asks for the setting under which null may stand for the absence of a property: `--null-absent`.
pub fn is_null_absent(word: &str) -> bool
    ensures { result ≡ is_null_absent_of word.now }
{
    word == "--null-absent"
}

// The depth that a command and a number say.
fn depth_in(word: &str, depth: &str) -> Option<u32>
    ensures exact { result ≡ depth_in_of word.now depth.now }
    ensures within { IfSome result (λ n. 1 ≤ n) }
{
    if word == "check" || word == "items" {
        depth_of(depth.as_bytes())
    } else {
        None
    }
}

/// The depth that a word says: one to three digits without a leading zero, from 1 to 512.
pub fn depth_of(digits: &[u8]) -> Option<u32>
    ensures exact { result ≡ depth_read digits.now }
    ensures within { IfSome result (λ n. 1 ≤ n) }
{
    match digits {
        [a] => {
            if is_leading(*a) {
                up_to_512(value_of(*a))
            } else {
                None
            }
        }
        [a, b] => {
            if is_leading(*a) && is_digit(*b) {
                up_to_512(value_of(*a) * 10 + value_of(*b))
            } else {
                None
            }
        }
        [a, b, c] => {
            if is_leading(*a) && is_digit(*b) && is_digit(*c) {
                up_to_512((value_of(*a) * 10 + value_of(*b)) * 10 + value_of(*c))
            } else {
                None
            }
        }
        _ => None,
    }
}

fn up_to_512(n: u32) -> Option<u32>
    requires { 1 ≤ n }
    ensures exact { result ≡ up_to 512 true n }
    ensures within { IfSome result (λ n. 1 ≤ n) }
{
    if n <= 512 { Some(n) } else { None }
}

fn is_digit(c: u8) -> bool
    ensures { result ≡ is_digit_of c }
{
    48 <= c && c <= 57
}

fn is_leading(c: u8) -> bool
    ensures exact { result ≡ is_leading_of c }
    ensures above { IsTrue result → 49 ≤ c }
{
    49 <= c && c <= 57
}

// The number that a digit stands for; 0 for a byte below the digits.
fn value_of(c: u8) -> u32
    ensures exact { result ≡ c - 48 }
    ensures small { result ≤ 207 }
{
    u32::from(c.saturating_sub(48))
}
