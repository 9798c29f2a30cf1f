// A list of numbers in an array, with its count.
ghost use Rattle.std.specs.Prelude.{◌≡◌, ◌≤◌, ◌<◌, ◌↔◌, [], ◌∷◌, ◌++◌, length, IsSome, MatchOption};
ghost use Rattle.poly.specs.Limits.{field_most};

use poly::limits::FIELD_MOST;
use std::marker::Model;
use std::ops::DerefSlice;

// At most as many numbers as there can be points. Zeros follow them, so that the list says the whole value.
#[derive(Clone, Copy)]
pub struct NumberList {
    items: [u8; FIELD_MOST],
    count: usize,
}

impl Model for NumberList {
    ghost use Rattle.std.specs.Prelude.{List, ℕ, length, take};
    ghost use Rattle.std.proofs.Common.{sym};
    ghost use Rattle.text.specs.NumberLists.{padded, HoldsNumbers};

    ghost Value = { List ℕ };

    ghost view = { λ list. take list.count list.items };

    ghost invariant = { λ list. HoldsNumbers (take list.count list.items) list.count list.items };

    ghost inverse = { λ ns. record { items = padded ns; count = length ns } };

    ghost inverse_ok = { λ list held i. record { items = sym held.items_are i; count = sym held.count_is i } };
}

impl NumberList {
    pub fn new() -> NumberList
        ensures { result ≡ [] }
    {
        NumberList {
            items: [0; FIELD_MOST],
            count: 0,
        }
    }

    // The number put at the end, where there is room.
    pub fn push(&mut self, number: u8) -> Option<()>
        ensures room { IsSome result ↔ (length self.old < field_most) }
        ensures pushed { MatchOption result (self.new ≡ self.old) (λ _. self.new ≡ self.old ++ number ∷ []) }
    {
        if self.count == FIELD_MOST {
            return None;
        }
        self.items[self.count] = number;
        self.count += 1;
        Some(())
    }
}

impl DerefSlice for NumberList {
    type Elem = u8;

    ghost deref_gives = { λ ns items. (items ≡ ns) × (length items ≤ field_most) };

    fn deref(&self) -> &[u8] {
        &self.items[..self.count]
    }
}
