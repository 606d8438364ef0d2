// A column's texts, and the two readings of them.
ghost use Rattle.std.specs.Prelude.{◌≡◌, true, ◌≤◌, length, is_some, IfSome};
ghost use Rattle.column.specs.Columns.{column as reads};
ghost use Rattle.whole_column.specs.Answer.{in_order, cut};
ghost use Rattle.parse_column.specs.Helpers.{refused_from, refused_at, stored_from};

use crate::parse;
use column::Column;
use refusal::Refusal;

// Texts that lie in bytes one behind another, by their ends.
#[derive(Clone, Copy)]
pub struct Texts<'a> {
    bytes: &'a [u8],
    ends: &'a [u32],
    ghost ordered: { in_order (length bytes.now) 0 ends.now ≡ true },
}

impl<'a> Texts<'a> {
    // These texts, or none where an end falls or passes the bytes.
    #[tactic(auto, using(crate::proofs::Order::ends_seen))]
    pub fn new(bytes: &'a [u8], ends: &'a [u32]) -> Option<Texts<'a>>
        ensures in_order { is_some result ≡ in_order (length bytes.now) 0 ends.now }
        ensures these { IfSome result (λ t. (t.bytes.now ≡ bytes.now) × (t.ends.now ≡ ends.now)) }
    {
        let mut last = 0;
        for &end in ends {
            let end = end as usize;
            if end < last || bytes.len() < end {
                return None;
            }
            last = end;
        }
        Some(Texts { bytes, ends })
    }

    // The first refused text's refusal, and its index.
    #[tactic(auto, using(crate::proofs::Turns::turns))]
    pub fn first_refused(self, column: Column) -> Option<(Refusal, usize)>
        ensures { refused_at result ≡ refused_from (reads «column») 0 (cut self.entry.bytes.now 0 self.entry.ends.now) }
    {
        let mut from = 0;
        for (i, &end) in self.ends.iter().enumerate() {
            let end = end as usize;
            if let Err(why) = parse(column, &self.bytes[from..end]) {
                return Some((why, i));
            }
            from = end;
        }
        None
    }

    // The values of the texts up to a refused one, each into its cell. A loop of its own beside that above, since no cell is touched while a text may
    // still be refused; of a `zip` with the cells, tried, the proof did not close.
    #[tactic(auto, using(crate::proofs::Turns::turns))]
    pub fn store(self, column: Column, cells: &mut [i64])
        requires { length self.ends.now ≤ length cells.old }
        ensures { cells.new ≡ stored_from (reads «column») 0 (cut self.entry.bytes.now 0 self.entry.ends.now) cells.old }
    {
        let mut from = 0;
        for (i, &end) in self.ends.iter().enumerate() {
            let end = end as usize;
            let Ok(z) = parse(column, &self.bytes[from..end]) else {
                return;
            };
            cells[i] = z;
            from = end;
        }
    }
}
