//! A tag of a document.
ghost use Rattle.std.specs.Prelude.{◌≡◌};
ghost use Rattle.automata.specs.Tags.{label};

/// An element opens or closes, by its label: a number, or what stands for one.
#[derive(Clone, Copy, PartialEq, Eq, Debug)]
pub enum Tag<L = u8> {
    Open(L),
    Close(L),
}

impl Tag {
    /// The label of the element.
    pub fn label(self) -> u8
        ensures { result ≡ label self }
    {
        match self {
            Tag::Open(label) | Tag::Close(label) => label,
        }
    }
}
