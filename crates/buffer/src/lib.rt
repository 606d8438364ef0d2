// A lent buffer: bytes put into it from a place on.
#![tactic(auto)]

ghost use Rattle.buffer.specs.Buffer.{Put};

// Puts bytes into a buffer from a place on, as far as it goes, and tells where they end, or would end in a longer one: a text that is put into no
// room at all is counted.
#[tactic(auto, using(crate::proofs::Puts::inside, crate::proofs::Puts::outside))]
pub fn put(s: &[u8], buffer: &mut [u8], at: usize) -> usize
    ensures { Put at s.now buffer.old buffer.new result }
{
    let end = at.saturating_add(s.len());
    if at < buffer.len() {
        let fits = s.len().min(buffer.len() - at);
        buffer[at..at + fits].copy_from_slice(&s[..fits]);
    }
    end
}
