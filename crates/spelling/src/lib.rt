// Values as people write them: identifiers, cell keys and dates, from text and back.
#![tactic(auto)]

pub mod from_text; // from_text.rt: the value of a text
pub mod to_text; // to_text.rt: the text of a value
