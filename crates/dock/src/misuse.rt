use thiserror::Error;

/// What can be wrong with the command line.
#[derive(Clone, Copy, Debug, Error)]
pub(crate) enum Misuse {
    #[error("there is no such option")]
    NoSuchOption,
    #[error("a number of decimal digits must stand here")]
    NotNumber,
    #[error("it is a third card, and two are the most")]
    ThirdCard,
    #[error("one file cannot be both cards")]
    SameCard,
    #[error("a --window stands behind the --card that it is over")]
    WindowFirst,
    #[error("one seal is enough: give --bench or --street once")]
    TwoSeals,
    #[error("one tape is enough: give --words or --keyed once")]
    TwoTapes,
    #[error("the last option lacks a word behind it")]
    WordMissing,
    #[error("no card is given: add --card FILE")]
    NoCard,
    #[error("no seal is given: add --bench or --street FILE")]
    NoSeal,
    #[error("no tape is given: add --words FILE or --keyed FILE COUNT")]
    NoTape,
}
