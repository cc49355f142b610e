//! Tests of the values and of the environment: texts, names, positions, documents, doors and gates.
#![tactic(auto)]

#[cfg(test)]
mod documents;
#[cfg(test)]
mod doors;
#[cfg(test)]
mod names;
#[cfg(test)]
mod short_texts;
