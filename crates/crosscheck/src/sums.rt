//! Queries that count: the weights of the labels have a sum with a remainder. Unlike a path, such a query takes a selector
//! from state to state and back again, so that each closing matters.
use crate::answers::Grade;
use crate::random::Random;
use crate::writing::label_line;
use std::alloc::Global;
use std::fmt;
use std::fmt::Write;

/// Where a sum begins: with the root, below it, or below the first label 0, without which there is no sum.
#[derive(Clone, Copy)]
pub enum Begin {
    Root,
    BelowRoot,
    BelowFirst,
}

/// Where it begins, the weights of the labels, a modulus, and the remainder that is wanted.
#[derive(Clone, Copy)]
pub struct Sum {
    begin: Begin,
    weights: [u8; 5],
    modulus: u8,
    remainder: u8,
}

// The query in words.
impl fmt::Display for Sum {
    fn fmt<W: fmt::Write>(&self, f: &mut fmt::Formatter<W>) -> fmt::Result {
        f.write_str(match self.begin {
            Begin::Root => "sum",
            Begin::BelowRoot => "sum below the root",
            Begin::BelowFirst => "sum below the first a",
        })?;
        for weight in self.weights {
            write!(f, " {weight}")?;
        }
        write!(f, " modulo {} is {}", self.modulus, self.remainder)
    }
}

impl Sum {
    /// A sum modulo 2, 3 or 4.
    pub fn any(random: &mut Random, begin: Begin) -> Sum {
        let modulus = random.label(3).saturating_add(2);
        let mut weights = [0; 5];
        for weight in weights.iter_mut() {
            *weight = random.label(modulus);
        }
        Sum {
            begin,
            weights,
            modulus,
            remainder: random.label(modulus),
        }
    }

    // Whether some labels come before the sum.
    fn waits(self) -> bool {
        !matches!(self.begin, Begin::Root)
    }

    // Whether the sum begins behind the label, if not before.
    fn begins_behind(self, label: u8) -> bool {
        match self.begin {
            Begin::Root | Begin::BelowRoot => true,
            Begin::BelowFirst => label == 0,
        }
    }

    // The weight of a label.
    fn weight(self, label: u8) -> u32 {
        self.weights
            .get(label as usize)
            .map_or(0, |weight| u32::from(*weight))
    }

    // The remainder of a number.
    fn rest(self, number: u32) -> u32 {
        number.checked_rem(u32::from(self.modulus)).unwrap_or(0)
    }

    /// Whether the labels have a sum with the remainder.
    pub fn means(self, labels: &[u8]) -> bool {
        let mut begun = !self.waits();
        let mut sum = 0u32;
        for label in labels {
            if begun {
                sum = sum.saturating_add(self.weight(*label));
            }
            begun = begun || self.begins_behind(*label);
        }
        begun && self.rest(sum) == u32::from(self.remainder)
    }

    /// The grade, where it is plain: no list brings two remainders to one, so that the present state is enough.
    pub fn known_grade(self) -> Option<Grade> {
        match self.begin {
            Begin::Root | Begin::BelowRoot => Some(Grade::Registerless),
            Begin::BelowFirst => None,
        }
    }

    /// The table text: a state for each remainder, and before them one for a sum that has not begun.
    pub fn table_text(self, heap: Global, labels: u8) -> anyhow::Result<String> {
        let before = u32::from(self.waits());
        let states = before.saturating_add(u32::from(self.modulus));
        let mut text = label_line(heap, labels)?;
        write!(text, "states\t{states}\t0\n")?;
        if self.waits() {
            self.push_waiting(&mut text, labels)?;
        }
        for rest in 0..self.modulus {
            self.push_row(&mut text, before, rest, labels)?;
        }
        Ok(text)
    }

    // The row of the state before the sum.
    fn push_waiting(self, text: &mut String, labels: u8) -> anyhow::Result<()> {
        write!(text, "row\t0\tno")?;
        for label in 0..labels {
            let target = u32::from(self.begins_behind(label));
            write!(text, "\t{target}")?;
        }
        write!(text, "\n")?;
        Ok(())
    }

    // The row of the state for a remainder; so many states stand before those.
    fn push_row(self, text: &mut String, before: u32, rest: u8, labels: u8) -> anyhow::Result<()> {
        let state = before.saturating_add(u32::from(rest));
        let answer = if rest == self.remainder { "yes" } else { "no" };
        write!(text, "row\t{state}\t{answer}")?;
        for label in 0..labels {
            let sum = self.weight(label).saturating_add(u32::from(rest));
            let target = before.saturating_add(self.rest(sum));
            write!(text, "\t{target}")?;
        }
        write!(text, "\n")?;
        Ok(())
    }
}
