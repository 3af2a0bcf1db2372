ghost use Rattle.std.specs.Prelude.{◌≡◌};
ghost use Rattle.session.specs.Making.{chosen, named};

/// The memory of a module, by its kind and its size.
#[derive(Clone, Copy, PartialEq, Eq, Debug)]
pub enum MemoryKind {
    /// A page memory of so many pages.
    Pages(u16),
    /// A row memory of so many rows.
    Rows(u16),
}

/// The matcher of a module.
#[derive(Clone, Copy, PartialEq, Eq, Debug)]
pub enum MatcherKind {
    /// Equal bytes agree.
    Byte,
    /// Enough near points agree.
    Point,
}

/// What a module is made of.
#[derive(Clone, Copy, PartialEq, Eq, Debug)]
pub struct Making {
    pub memory: MemoryKind,
    pub matcher: MatcherKind,
    /// The module number.
    pub number: u16,
}

impl MatcherKind {
    /// The matcher of this name, byte or point; none for another name.
    pub fn named(name: &str) -> Option<MatcherKind>
        ensures { result ≡ named name.now }
    {
        match name {
            "byte" => Some(MatcherKind::Byte),
            "point" => Some(MatcherKind::Point),
            _ => None,
        }
    }
}

impl Making {
    /// What is chosen, and for the rest 16 pages, the byte matcher and the number 1. Rows stand in place of pages.
    pub fn chosen(
        pages: Option<u16>,
        rows: Option<u16>,
        matcher: Option<MatcherKind>,
        number: Option<u16>,
    ) -> Making
        ensures { result ≡ chosen pages rows matcher number }
    {
        let memory = match rows {
            Some(rows) => MemoryKind::Rows(rows),
            None => MemoryKind::Pages(pages.unwrap_or(16)),
        };
        Making {
            memory,
            matcher: matcher.unwrap_or(MatcherKind::Byte),
            number: number.unwrap_or(1),
        }
    }
}
