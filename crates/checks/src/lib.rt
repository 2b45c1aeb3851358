//! Tests through the library: examples, and each refusal.
#![tactic(auto)]

#[cfg(test)]
mod grades;
#[cfg(test)]
mod numbers;
#[cfg(test)]
mod routes;
#[cfg(test)]
mod runs;
#[cfg(test)]
mod selectors;
#[cfg(test)]
mod sources;
#[cfg(test)]
mod texts;
