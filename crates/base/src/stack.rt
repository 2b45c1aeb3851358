//! The store: last in, first out, over a lent slice.
ghost use Rattle.std.specs.Prelude.{◌≡◌, ◌≤◌, length};

// A count beside the slice, and no `Vec`: the memory is lent, for there is no heap.
/// Entries at the first places of a lent slice, the last one on top.
#[derive(Drop)]
pub struct Stack<'a, T> {
    places: &'a mut [T],
    len: usize,
    ghost within: { len ≤ length places.now },
}

impl<'a, T: Copy> Stack<'a, T> {
    ghost use Rattle.base.specs.Stacks.{used, Pushes, Pops, Empties};

    /// Nothing stored; the slice keeps its contents.
    pub fn new(places: &'a mut [T]) -> Stack<'a, T>
        ensures len { result.len ≡ 0 }
        ensures places { result.places.now ≡ places.old }
        ensures lent { result.places.ghost_name ≡ places.entry.ghost_name }
    {
        Stack { places, len: 0 }
    }

    /// How many entries are stored.
    pub fn len(&self) -> usize
        ensures { result ≡ used self.now }
    {
        self.len
    }

    /// How many there is room for.
    pub fn capacity(&self) -> usize
        ensures { result ≡ length self.now.places.now }
    {
        self.places.len()
    }

    /// Stores x at the first free place; a full store gives it back.
    pub fn push(&mut self, x: T) -> Result<(), T>
        ensures { Pushes self.old x self.new result }
    {
        if self.len == self.places.len() {
            return Err(x);
        }
        self.places[self.len] = x;
        self.len += 1;
        Ok(())
    }

    /// Takes the last entry off.
    pub fn pop(&mut self) -> Option<T>
        ensures { Pops self.old self.new result }
    {
        let last = self.len.checked_sub(1)?;
        self.len = last;
        Some(self.places[last])
    }

    /// Takes every entry off; the slice keeps its contents.
    pub fn clear(&mut self)
        ensures { Empties self.old self.new }
    {
        self.len = 0;
    }

    /// The slice back.
    pub fn into_places(self) -> &'a mut [T]
        ensures places { result.now ≡ self.entry.places.now }
        ensures lent { result.ghost_name ≡ self.entry.places.ghost_name }
    {
        let Stack { places, len: _ } = self;
        places
    }
}
