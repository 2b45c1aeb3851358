//! What the arguments ask for.
use choosing::kind::SelectorKind;

/// Where a query comes from.
#[derive(Clone, Copy)]
pub enum Query<'a> {
    /// A table text.
    Table(&'a str),
    /// A text of one label line, and a path.
    Path { labels: &'a str, path: &'a str },
}

/// A document to pick from.
#[derive(Clone, Copy)]
pub struct PickOptions<'a> {
    pub query: Query<'a>,
    pub document: &'a str,
    pub packed: bool,
    pub limit: Option<u32>,
    pub selector: SelectorKind,
}

/// One call of the program.
#[derive(Clone, Copy)]
pub enum Command<'a> {
    Help,
    Pick(PickOptions<'a>),
    Grade(Query<'a>),
}

impl<'a> Command<'a> {
    /// The command of the words after the program's name; none where they are wrong.
    pub fn parse(words: &'a [String]) -> Option<Command<'a>> {
        let (command, rest) = words.split_first()?;
        match command.as_str() {
            "--help" => Some(Command::Help),
            "pick" => Some(Command::Pick(Arguments::parse(rest)?.pick_options()?)),
            "grade" => Some(Command::Grade(Arguments::parse(rest)?.grade_query()?)),
            _ => None,
        }
    }
}

// The words after the command, each in its place.
#[derive(Clone, Copy, Default)]
struct Arguments<'a> {
    table: Option<&'a str>,
    labels: Option<&'a str>,
    path: Option<&'a str>,
    limit: Option<u32>,
    selector: Option<SelectorKind>,
    packed: bool,
    document: Option<&'a str>,
}

impl<'a> Arguments<'a> {
    fn parse(words: &'a [String]) -> Option<Arguments<'a>> {
        let mut given = Arguments::default();
        let mut words = words.iter();
        while let Some(word) = words.next() {
            match word.as_str() {
                "--table" => given.table = Some(words.next()?.as_str()),
                "--labels" => given.labels = Some(words.next()?.as_str()),
                "--path" => given.path = Some(words.next()?.as_str()),
                "--limit" => given.limit = Some(words.next()?.parse().ok()?),
                "--selector" => given.selector = Some(words.next()?.parse().ok()?),
                "--packed" => given.packed = true,
                word if word.starts_with('-') || given.document.is_some() => return None,
                word => given.document = Some(word),
            }
        }
        Some(given)
    }

    // Without a selector's name, the stack selector picks.
    fn pick_options(self) -> Option<PickOptions<'a>> {
        Some(PickOptions {
            query: self.query()?,
            document: self.document?,
            packed: self.packed,
            limit: self.limit,
            selector: self.selector.unwrap_or(SelectorKind::Stack),
        })
    }

    fn grade_query(self) -> Option<Query<'a>> {
        let picks = self.packed || self.limit.is_some() || self.selector.is_some();
        if picks || self.document.is_some() {
            return None;
        }
        self.query()
    }

    // A table, or labels with a path, and not both.
    fn query(self) -> Option<Query<'a>> {
        match (self.table, self.labels, self.path) {
            (Some(table), None, None) => Some(Query::Table(table)),
            (None, Some(labels), Some(path)) => Some(Query::Path { labels, path }),
            _ => None,
        }
    }
}
