// What stands between the commas of a list, or alone as a value.
ghost use Rattle.std.specs.Prelude.{◌≡◌, ℕ};
ghost use Rattle.fixed.specs.Items.{items};
ghost use Rattle.format.specs.Elements.{Kind, Spells};

use fixed::array_vec::ArrayVec;

// kept: `TryFrom` and `Display` would be no plainer, with an error that says nothing and a formatter for four bytes.
pub trait Element: Copy + Default {
    ghost kind: { Kind Self };

    ghost wide: { ℕ };

    // The element as it is written, in at most four bytes.
    fn letters(self) -> ArrayVec<u8, 4>
        ensures { items result ≡ kind.spell self };

    // The element that the bytes are, if they have its shape.
    fn shape_of(bytes: &[u8]) -> Option<Self>
        ensures { result ≡ kind.shape bytes.now };

    // Whether the element may stand behind `before` in a list.
    fn may_follow(self, before: Self) -> bool
        ensures { result ≡ kind.after before self };

    // Whether the element is within its limits, where its number has to be below `limit`.
    fn is_inside(self, limit: u8) -> bool
        ensures { result ≡ kind.inside limit self };

    // its shapes are just its spellings
    ghost exact: { Spells kind wide };
}
