//! The causes for which a line of a description is bad.

ghost use Rattle.std.specs.Prelude.{◌≡◌};
ghost use Rattle.desc_causes.specs.Causes.{cause_text};

/// Why a line of a description is bad. A line that is bad for several causes has the first of them.
#[derive(Clone, Copy, Debug, PartialEq, Eq, Drop)]
pub enum DescCause {
    /// It is no UTF-8, or has none of the five shapes.
    BadLine,
    /// A name that it declares is none.
    BadName,
    /// A name was declared before, or two columns that are written for a table have one name.
    DoubleName,
    /// The feed of a raw table was not declared.
    NoFeed,
    /// A source of a view is no earlier table.
    NoSource,
    /// A column is not in its table.
    NoColumn,
    /// A type is none, or a column has another type than its place wants.
    BadType,
    /// The width is none, or no multiple of the width of a source.
    BadWidth,
    /// An offset is none, or a span does not fit its source.
    BadSpan,
    /// The line declares more than a description may have.
    TooMany,
}

impl DescCause {
    /// The word that names the cause.
    pub fn text(&self) -> &'static str
        ensures exact { result.now ≡ cause_text self.now }
    {
        match self {
            DescCause::BadLine => "bad_line",
            DescCause::BadName => "bad_name",
            DescCause::DoubleName => "double_name",
            DescCause::NoFeed => "no_feed",
            DescCause::NoSource => "no_source",
            DescCause::NoColumn => "no_column",
            DescCause::BadType => "bad_type",
            DescCause::BadWidth => "bad_width",
            DescCause::BadSpan => "bad_span",
            DescCause::TooMany => "too_many",
        }
    }
}
