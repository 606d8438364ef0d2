// The text under every reader: bytes, their digits, and trimming.
#![tactic(auto)]

ghost use Rattle.std.specs.Prelude.{◌≡◌, slice_index};

pub mod digits;
pub mod trim;

// The byte at i, and 0 past the end, as `slice_index` of the definitions has it: no form has a byte 0, so that an Option would add a case.
pub fn byte_at(s: &[u8], i: usize) -> u8
    ensures { result ≡ slice_index s.now i }
{
    s.get(i).copied().unwrap_or(0)
}
