//! The words of the command line.
ghost use Rattle.std.specs.Prelude.{◌≡◌, ◌≤◌, map, string_bytes, IfSome};
ghost use Rattle.model_lines.specs.Words.{depth_in as depth_in_of, depth_said};

use schema_tree::Setting;
use typify_run::{depth_of, is_null_absent};

/// At which depth, and under which setting.
#[derive(Clone, Copy)]
pub(crate) struct Asked {
    pub depth: u32,
    pub setting: Setting,
}

/// The depth that `lines DEPTH` names, a number from 1 to 512, alone or with `--null-absent` behind it; nothing for any other words.
pub(crate) fn depth_of_words(words: &[String]) -> Option<u32>
    ensures exact { result ≡ depth_said (map string_bytes words.now) }
    ensures within { IfSome result (λ n. 1 ≤ n) }
{
    match words {
        [word, depth] => depth_in(word, depth),
        [word, depth, option] => {
            if is_null_absent(option) {
                depth_in(word, depth)
            } else {
                None
            }
        }
        _ => None,
    }
}

// The depth that the word and a number say.
fn depth_in(word: &str, depth: &str) -> Option<u32>
    ensures exact { result ≡ depth_in_of word.now depth.now }
    ensures within { IfSome result (λ n. 1 ≤ n) }
{
    if word == "lines" {
        depth_of(depth.as_bytes())
    } else {
        None
    }
}
