// The reader of sorts and terms: names are resolved, and the first condition that doesn't hold is told.
#![tactic(auto)]

mod apply;
mod head;
mod laws;
mod literal;
mod parts;
mod rule;
mod term;

pub use laws::{constant_rules_give_constants, rules_fit, whole_terms_fit};
pub use rule::{read_rule, read_whole};
pub use sy_forms_items::{
    Entity, Environment, Fault, Indices, Measures, Named, Names, Phrase, Phrases, ReadEnd, Rest,
    Role, Ruling, Typed, copied, is, is_reserved, is_symbol, numeral, place_among, place_of,
    read_sort, same_sorts, symbol, symbol_in,
};
pub use sy_forms_linear::{constant_groups, divisor_groups, has_sort};
