use wc_model::{Kind, StandardBlock};

/// In which way the rule of a refusal's number is broken. What each means says its sentence (`sentence_of`) or its hint (`hint_of`).
#[derive(Clone, Copy)]
pub enum Case {
    /// It is not known, or nothing is quoted.
    Unknown,
    /// The way of its number that has no case of its own.
    Plain,
    /// A mistake with words of its own, on which nothing else depends.
    Worded,
    // Slices that are not tokens.
    ByteOrderMark,
    Utf16,
    Byte(u8),
    NoBreakSpace,
    DoubleUnderscore,
    LastUnderscore,
    TooLong,
    SignAlone,
    WithBase,
    WithPoint,
    OutOfRange,
    NoNumber,
    // Tokens at which the reading stops.
    LeftOut,
    /// CONSTANT, RETAIN or PERSISTENT after the word that begins a section.
    Lasting,
    SectionWord,
    OpenSection,
    Declaration,
    UnitEnd,
    UnitWord,
    NoUnit,
    AfterProgram,
    Configuration,
    NoOperator,
    /// An operator of another tool or language.
    OtherOperator,
    LineEnd,
    NoAddress,
    Closing,
    NegatedOperand,
    InstanceCall,
    LabelWithoutColon,
    Loop,
    Assignment,
    StatementList,
    /// A standard function.
    Function,
    Conversion,
    DownCounter,
    // Slices that a later pass refuses.
    Variable,
    BlockBelow,
    BlockType,
    Field,
    Instance,
    NoInstance,
    /// An operand of that kind, which its operator never takes.
    Untaken(Kind),
    /// An operand of that kind after a result of another kind.
    Unlike(Kind),
    /// A value or a target of the first kind for an input or an output of the second.
    Unpassed(Kind, Kind),
    /// A name in a call's list that this standard block does not have.
    NotOfBlock(StandardBlock),
    /// A name in a call's list that this block of the text does not have.
    NotOfOwnBlock,
    InputArrow,
    OutputAssigned,
    LiteralTarget,
    AtLabel,
    Unreached,
    LabelAbove,
    Result,
    Deferred,
    // Types that do not match: what makes them match.
    TruthLiteral,
    StoredTimeToNumber,
    ComparedNumber,
    ComparedTime,
    CountedBool,
    OrderedBool,
    MultipliedTime,
    DividedTime,
}
