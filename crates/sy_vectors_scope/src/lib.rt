// Sources and sinks; texts of the lexicon, each with what is read of it, or its fault; what a pool keeps; files that
// are made from numbers; and proofs in text: logs and trees that are read and written as they were, texts that are
// none, and clauses as text.
#![tactic(auto)]

#[cfg(test)]
mod bytes;
#[cfg(test)]
mod clauses;
#[cfg(test)]
mod drills;
#[cfg(test)]
mod lexicon;
#[cfg(test)]
mod pool;
#[cfg(test)]
mod proofs_tables;
#[cfg(test)]
mod second;
#[cfg(test)]
mod tables;
#[cfg(test)]
mod texts;
