// Trimming of ASCII white space: tab, line feed, form feed, carriage return and space.
ghost use Rattle.std.specs.Prelude.{◌≡◌};
ghost use Rattle.text.specs.Trim.{trimmed};

use crate::digits;

// Nothing to do where the text begins and ends with a digit: the Rust's four cases.
pub fn trim_pre_and_post_whitespace(s: &[u8]) -> &[u8]
    ensures { result.now ≡ trimmed s.now }
{
    let [first, ..] = s else {
        return s;
    };
    let prefix = 10 <= digits::digit(*first);
    let suffix = 10 <= digits::digit(s[s.len() - 1]);
    match (prefix, suffix) {
        (true, true) => s.trim_ascii_start().trim_ascii_end(),
        (true, false) => s.trim_ascii_start(),
        (false, true) => s.trim_ascii_end(),
        (false, false) => s,
    }
}
