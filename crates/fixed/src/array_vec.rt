// A list of at most N items in places of its own.
ghost use Rattle.std.specs.Prelude.{◌≡◌, ◌<◌, ◌≤◌, [], ◌∷◌, ◌++◌, length, take, nat_le};
ghost use Rattle.fixed.specs.Items.{items, most, last_of, Pushed};

// kept: no heap, and memory of a fixed size; the kit's own such list has a word for its length and is not Copy. And no
// ghost field says that the length fits: tried, it wants a Clone by hand and a file of its own, and spares one `min`.
//
// Every value means a list, `items`: what stands in the first `len` places, or in all of them if `len` is larger.
// So there is nothing for a caller to keep true. The places behind are filler.
#[derive(Clone, Copy, Debug)]
pub struct ArrayVec<T, const N: usize> {
    places: [T; N],
    len: u8,
}

impl<T: Copy, const N: usize> ArrayVec<T, N> {
    // The empty list. The filler is never read.
    pub fn new(filler: T) -> Self
        ensures { items result ≡ [] }
    {
        ArrayVec {
            places: [filler; N],
            len: 0,
        }
    }

    // How many items there are.
    pub fn len(&self) -> u8
        ensures value { result ≡ length (items self.now) }
        ensures bound { result ≤ most N }
    {
        self.as_slice().len() as u8
    }

    // Whether no place is left.
    pub fn is_full(&self) -> bool
        ensures { result ≡ nat_le (most N) (length (items self.now)) }
    {
        N.min(u8::MAX as usize) <= self.len() as usize
    }

    // The items, in their order.
    pub fn as_slice(&self) -> &[T]
        ensures value { result.now ≡ items self.now }
        ensures bound { length result.now ≤ most N }
    {
        front(&self.places[..], self.len as usize)
    }

    // The last item, where there is one.
    #[tactic(auto, using(crate::proofs::Lasts::last_read))]
    pub fn last(&self) -> Option<T>
        ensures { result ≡ last_of (items self.now) }
    {
        self.as_slice().last().copied()
    }

    // One item more, behind the others. Where there is no place left, the item comes back and the list stays.
    pub fn push(&mut self, item: T) -> Result<(), T>
        ensures { Pushed self.old item self.new result }
    {
        let at = self.len();
        if at as usize >= N.min(u8::MAX as usize) {
            return Err(item);
        }
        self.places[at as usize] = item;
        self.len = at + 1;
        Ok(())
    }

    // More items behind the others, as far as there are places.
    pub fn extend_from_slice(&mut self, more: &[T])
        ensures { items self.new ≡ take (most N) (items self.old ++ more.now) }
    {
        let len = self.len() as usize;
        let free = N.min(u8::MAX as usize) - self.len() as usize;
        let fitting = &more[..more.len().min(free)];
        let end = len + fitting.len();
        let places = &mut self.places[..];
        places[len..end].copy_from_slice(fitting);
        self.len = end as u8;
    }
}

// The empty list, its filler the items' own default.
impl<T: Copy + Default, const N: usize> Default for ArrayVec<T, N> {
    ghost is_default = { λ list. items list ≡ [] };

    fn default() -> Self {
        ArrayVec::new(T::default())
    }
}

// The first `len` items, or all if there are fewer.
fn front<T>(all: &[T], len: usize) -> &[T]
    ensures value { result.now ≡ take len all.now }
    ensures bound { (length result.now ≤ len) × (length result.now ≤ length all.now) }
{
    &all[..all.len().min(len)]
}
