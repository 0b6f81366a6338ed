// Generator matrices: what they do to words, the judge that accepts or refuses one, and the record of a lawful one.
#![tactic(auto)]

pub mod judge;
pub mod matrix;
pub mod record;
