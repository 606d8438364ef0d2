// Texts as lines write them: `\xHH` is a byte, any other byte stands for itself.
ghost use Rattle.std.specs.Prelude.{◌≡◌, [], ◌∷◌, ◌+◌, ◌<◌, None, Some, length, take, drop, IfSome, MatchOption};
ghost use Rattle.lines.specs.Escape.{escaped, hex_worth, unescaped};

use room::Room;

// Puts the text that is written in the place of what is held, as far as there is room.
#[tactic(auto, using(crate::proofs::Escapes::unescaping))]
pub fn unescape<const N: usize>(s: &[u8], out: &mut Room<N>)
    ensures { out.new ≡ take N (unescaped s.now) }
{
    out.clear();
    let mut rest = s;
    while let Some((byte, behind)) = first(rest) {
        out.put_byte(byte);
        rest = behind;
    }
}

// The first byte of a text, and what stands behind what writes it.
fn first(s: &[u8]) -> Option<(u8, &[u8])>
    ensures { MatchOption result (s.now ≡ []) (λ x. (unescaped s.now ≡ x.0 ∷ unescaped x.1.now) × (length x.1.now < length s.now)) }
{
    let (&byte, behind) = s.split_first()?;
    Some(escape(s).unwrap_or((byte, behind)))
}

// The byte that an escape in front of a text writes, and what stands behind the escape.
#[tactic(auto, using(crate::proofs::Escapes::too_short), unfolding(crate::specs::Escape::escaped))]
fn escape(s: &[u8]) -> Option<(u8, &[u8])>
    ensures { MatchOption result (escaped s.now ≡ None) (λ x. (escaped s.now ≡ Some x.0) × (x.1.now ≡ drop 4 s.now) × (length x.1.now + 4 ≡ length s.now)) }
{
    match s {
        [b'\\', b'x', high, low, rest @ ..] => Some((hex(*high)? * 16 + hex(*low)?, rest)),
        _ => None,
    }
}

// What a hexadecimal digit in capitals is worth.
#[tactic(auto, unfolding(crate::specs::Escape::hex_worth))]
fn hex(b: u8) -> Option<u8>
    ensures value { result ≡ hex_worth b }
    ensures bound { IfSome result (λ n. n < 16) }
{
    match b {
        b'0'..=b'9' => Some(b - b'0'),
        b'A'..=b'F' => Some(b - b'A' + 10),
        _ => None,
    }
}
