//! The pages that a document has of rules and refusals.

/// The page of a rule or a refusal.
#[derive(Clone, Copy, Debug)]
pub struct Page {
    /// `F01`.
    pub code: &'static str,
    /// Where its heading is: `f01-no-end-segment`.
    pub anchor: &'static str,
    /// What a line says after the code, and the heading after it.
    pub title: &'static str,
    /// What is below the heading, in Markdown.
    pub text: &'static str,
}

/// The pages of a document, and where they are read.
#[derive(Clone, Copy, Debug)]
pub struct Pages<'a> {
    /// Results name their pages by their places in this list.
    pub list: &'a [Page],
    /// The address of the page that has them all, if it has one.
    pub docs: Option<&'a str>,
}
