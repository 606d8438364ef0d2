// Lines that are written: bytes and numbers put behind others, into a room of a fixed length.
// Writing itself stays in the programs: no contract can say what is written.
#![tactic(auto)]

ghost use Rattle.std.specs.Prelude.{◌≡◌, ◌==◌, [], ◌∷◌, ◌≤◌, List, ℕ, length, take};
ghost use Rattle.decimal.specs.Decimal.{decimal, signed_text};
ghost use Rattle.room.specs.Room.{appended};

use std::marker::Model;

// At most N bytes, in the order in which they were put. An ArrayVec refuses what does not fit whole; here as much of it is put as fits, so that
// one over it would put byte by byte.
#[derive(Drop)]
pub struct Room<const N: usize> {
    bytes: [u8; N],
    len: usize,
}

impl<const N: usize> Model for Room<N> {
    ghost Value = { List ℕ };

    ghost view = { λ r. take r.len r.bytes };

    ghost invariant = { λ r. (r.len ≤ N) × (length r.bytes ≡ N) };
}

impl<const N: usize> Room<N> {
    pub fn new() -> Self
        ensures { result ≡ [] }
    {
        Room {
            bytes: [0; N],
            len: 0,
        }
    }

    pub fn as_bytes(&self) -> &[u8]
        ensures bytes { result.now ≡ self.now }
        ensures fit { length result.now ≤ N }
    {
        &self.bytes[..self.len]
    }

    pub fn is_empty(&self) -> bool
        ensures { result ≡ (length self.now == 0) }
    {
        self.len == 0
    }

    pub fn clear(&mut self)
        ensures { self.new ≡ [] }
    {
        self.len = 0;
    }

    // Puts bytes behind those that are held, as many as there is room for.
    #[tactic(auto, using(crate::proofs::Filling::filling))]
    pub fn put(&mut self, s: &[u8])
        ensures { self.new ≡ appended N self.old s.now }
    {
        let fits = s.len().min(N - self.len);
        let end = self.len + fits;
        let bytes = &mut self.bytes[..];
        bytes[self.len..end].copy_from_slice(&s[..fits]);
        self.len = end;
    }

    // Puts one byte by a store, where `put` calls for a copy: a text put byte by byte takes half the time.
    #[inline(always)]
    pub fn put_byte(&mut self, byte: u8)
        ensures { self.new ≡ appended N self.old (byte ∷ []) }
    {
        if self.len < N {
            self.bytes[self.len] = byte;
            self.len += 1;
        }
    }

    // A number's digits.
    #[tactic(auto, using(crate::proofs::Numerals::as_decimal))]
    pub fn put_number(&mut self, number: u64)
        ensures { self.new ≡ appended N self.old (decimal number) }
    {
        // What the library's `decimal` fills.
        let mut digits = [0u8; 20];
        let k = io::decimal(number, &mut digits);
        self.put(&digits[..k]);
    }

    // A signed number's sign and digits.
    #[tactic(auto, using(crate::proofs::Filling::twice, crate::proofs::Numerals::signed))]
    pub fn put_signed(&mut self, z: i64)
        ensures { self.new ≡ appended N self.old (signed_text z) }
    {
        if z < 0 {
            self.put(b"-");
        }
        self.put_number(z.unsigned_abs());
    }
}
