// Worked examples of public calls of several areas, as far as no whole run shows what they answer; `sy_vectors_scope`
// has those of files and of the command line.
#![tactic(auto)]

#[cfg(test)]
mod answers;
#[cfg(test)]
mod clauses;
#[cfg(test)]
mod conditions;
#[cfg(test)]
mod cuts;
#[cfg(test)]
mod defaults;
#[cfg(test)]
mod evaluation;
#[cfg(test)]
mod facts;
#[cfg(test)]
mod forms;
#[cfg(test)]
mod fractions;
#[cfg(test)]
mod gates;
#[cfg(test)]
mod grammars;
#[cfg(test)]
mod integer_answers;
#[cfg(test)]
mod integers;
#[cfg(test)]
mod joins;
#[cfg(test)]
mod lowerings;
#[cfg(test)]
mod measures;
#[cfg(test)]
mod operators;
#[cfg(test)]
mod queries;
#[cfg(test)]
mod rows;
#[cfg(test)]
mod sorts;
#[cfg(test)]
mod tables;
#[cfg(test)]
mod terms;
#[cfg(test)]
mod trees;
#[cfg(test)]
mod words;
