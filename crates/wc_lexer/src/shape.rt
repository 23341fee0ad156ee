/// What a token is.
#[derive(Clone, Copy, PartialEq, Eq)]
pub enum Shape {
    Identifier,
    /// A whole-number literal with its value.
    Whole(i32),
    /// A duration with its milliseconds.
    Duration(i32),
    /// `BOOL#0` or `BOOL#1`.
    Truth(bool),
    /// An address.
    Address,
    /// `&`.
    And,
    /// `&N`.
    AndNot,
    /// `(`.
    Opening,
    /// `)`.
    Closing,
    /// `,`.
    Comma,
    /// `:`.
    Colon,
    /// `;`.
    Semicolon,
    /// `.`.
    Point,
    /// `:=`.
    Assign,
    /// `=>`.
    Arrow,
    /// A line feed.
    LineEnd,
}

/// A token of a text.
#[derive(Clone, Copy, PartialEq, Eq)]
pub struct Token<'a> {
    /// What it is.
    pub shape: Shape,
    /// Its slice of the text.
    pub text: &'a [u8],
    /// Where the slice starts.
    pub start: u32,
    /// The line on which it starts, counted from 1.
    pub line: u32,
}
