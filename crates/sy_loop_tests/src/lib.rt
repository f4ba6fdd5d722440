// Tests of banks and of parts of the search, in a crate of their own, so that what they stand on is read and proved
// once.
#![tactic(auto)]

#[cfg(test)]
mod banks;
#[cfg(test)]
mod combinations;
#[cfg(test)]
mod formulas;
#[cfg(test)]
mod part_rows;
#[cfg(test)]
mod parts;
#[cfg(test)]
mod points;
#[cfg(test)]
mod pointwise;
#[cfg(test)]
mod refutations;
#[cfg(test)]
mod rows;
#[cfg(test)]
mod shared_terms;
#[cfg(test)]
mod terms;
#[cfg(test)]
mod tests;
