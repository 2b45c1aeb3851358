//! Notes of the states from before a path entered another component.
ghost use Rattle.std.specs.Prelude.{◌≡◌, ◌≤◌, length};
/// The state from before a step into another component, and the depth that the step led to.
#[derive(Clone, Copy)]
pub struct Note {
    pub depth: u16,
    pub state: u8,
}

// Each note is of another component, and none is of the last, so 31 places suffice for 32 states.
// No `ArrayList`: its `usize` count would make the selector ten bytes larger, and `pintleapple grade` prints how large it is.
/// At most 31 notes, the newest last. Places past the count mean nothing.
#[derive(Drop)]
pub struct Notes {
    places: [Note; 31],
    count: u8,
    ghost within: { (count ≤ 31) × (length places ≡ 31) },
}

impl Notes {
    ghost use Rattle.std.specs.Prelude.{◌<◌, [], ◌∷◌, ◌++◌};
    ghost use Rattle.grading.specs.Held.{plain, held, Newest, Recalls};

    pub fn none() -> Notes
        ensures { held result ≡ [] }
    {
        Notes {
            places: [Note { depth: 0, state: 0 }; 31],
            count: 0,
        }
    }

    pub fn count(&self) -> u8
        ensures { result ≡ length (held self.now) }
    {
        self.count
    }

    pub fn newest(&self) -> Option<Note>
        ensures { Newest (held self.now) result }
    {
        self.places[..self.count as usize].last().copied()
    }

    /// Writes a note behind the last.
    pub fn push(&mut self, note: Note)
        requires { length (held self.old) < 31 }
        ensures { held self.new ≡ held self.old ++ plain note ∷ [] }
    {
        self.places[self.count as usize] = note;
        self.count += 1;
    }

    /// Takes the newest note back if the depth is above it.
    pub fn recall(&mut self, depth: u16) -> Option<Note>
        ensures { Recalls (held self.old) depth (held self.new) result }
    {
        let note = self.newest()?;
        if depth >= note.depth {
            return None;
        }
        self.count -= 1;
        Some(note)
    }

    pub fn clear(&mut self)
        ensures { held self.new ≡ [] }
    {
        self.count = 0;
    }
}
