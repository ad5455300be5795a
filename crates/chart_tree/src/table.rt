// Tables of sets: a set for each number below the table's length, and none for the others.
ghost use Rattle.std.specs.Prelude.{◌≡◌, ℕ, false, ◌&&◌, ◌||◌, ◌==◌, nat_lt};
ghost use Rattle.set64.specs.Sets.{has};
ghost use Rattle.chart_tree.specs.Tables.{set_at};

use set64::Set64;

// kept: an array, and not a map or a Vec: no heap, and memory of a fixed size.
#[derive(Clone, Copy)]
pub struct Table<const N: usize> {
    sets: [Set64; N],
}

impl<const N: usize> Table<N> {
    // A table with no members yet.
    pub fn blank() -> Self
        ensures { (i v : ℕ) → set_at result i v ≡ false }
    {
        Table {
            sets: [Set64::empty(); N],
        }
    }

    // The set in a place.
    pub fn at(&self, place: u8) -> Set64
        ensures { (v : ℕ) → has result v ≡ set_at self.now place v }
    {
        self.sets
            .get(place as usize)
            .copied()
            .unwrap_or(Set64::empty())
    }

    // More members for the set in a place.
    pub fn join(&mut self, place: u8, more: Set64)
        ensures { (i v : ℕ) → set_at self.new i v ≡ (set_at self.old i v || ((nat_lt place N && i == place) && has more v)) }
    {
        let place = place as usize;
        // kept: tried, but through `get_mut` the check knows no more of the other sets
        if place < N {
            self.sets[place] = self.sets[place].union(more);
        }
    }
}
