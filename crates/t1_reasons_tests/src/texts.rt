//! Texts of reasons: t1_reason_texts, by its public items alone. A row has a rule, a reason and its text, which is written
//! by hand.

mod font_texts;
mod rows;
mod step_texts;
mod third_edition;
