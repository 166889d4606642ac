// The forms that permits, files and the book have in common: identifiers, dates as text, and why a call is refused.
#![tactic(auto)]

pub mod date_text; // date_text.rt: a date as text
pub mod identifiers; // identifiers.rt: the forms of HW_ID, M_ID, M_KEY, cell names and Data Server IDs
pub mod refusals; // refusals.rt: why a call is refused, by the numbers of the rules
