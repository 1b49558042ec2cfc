//! The words of the command line.
ghost use Rattle.std.specs.Prelude.{◌≡◌, ◌≤◌, map, string_bytes, IfSome};
ghost use Rattle.schema_words.specs.Words.{depth_behind as depth_behind_of, depth_if as depth_if_of};

use typify_run::{depth_of, is_null_absent};

/// The depth that stands behind the word, a number from 1 to 512, alone or with `--null-absent` behind it; nothing for any other words.
pub fn depth_behind(word: &str, words: &[String]) -> Option<u32>
    ensures exact { result ≡ depth_behind_of word.now (map string_bytes words.now) }
    ensures within { IfSome result (λ n. 1 ≤ n) }
{
    match words {
        [first, depth] => depth_if(word, first, depth),
        [first, depth, option] => {
            if is_null_absent(option) {
                depth_if(word, first, depth)
            } else {
                None
            }
        }
        _ => None,
    }
}

fn depth_if(word: &str, first: &str, depth: &str) -> Option<u32>
    ensures exact { result ≡ depth_if_of word.now first.now depth.now }
    ensures within { IfSome result (λ n. 1 ≤ n) }
{
    if first == word {
        depth_of(depth.as_bytes())
    } else {
        None
    }
}
