//! Lists of labels.
use text::list::ArrayList;

/// At most 1,024 labels.
#[derive(Clone, Copy)]
pub struct Word {
    list: ArrayList<u8, 1024>,
}

impl Word {
    ghost use Rattle.std.specs.Prelude.{◌≡◌, ◌<◌, [], ◌∷◌, ◌++◌, length};
    ghost use Rattle.grading.specs.Words.{labels_of};

    /// The labels, from the first on.
    pub fn labels(&self) -> &[u8]
        ensures { result.now ≡ labels_of self.now }
    {
        self.list.as_slice()
    }

    // The list without a label.
    pub(crate) fn empty() -> Word
        ensures { labels_of result ≡ [] }
    {
        Word {
            list: ArrayList::empty(0),
        }
    }

    // Puts one label more at the end.
    pub(crate) fn push(&mut self, label: u8)
        requires { length (labels_of self.old) < 1024 }
        ensures { labels_of self.new ≡ labels_of self.old ++ label ∷ [] }
    {
        let _ = self.list.push(label);
    }
}
