// Small graphs where the order of the meals is known, and messages over wires whose losses are known, and how values are shown and numbered, worked out by hand from the rules. The crate holds tests and nothing else.
#![tactic(auto)]

#[cfg(test)]
mod deliveries;
#[cfg(test)]
mod graphs;
#[cfg(test)]
mod parties;
#[cfg(test)]
mod patterns;
#[cfg(test)]
mod rings;
#[cfg(test)]
mod stars;
#[cfg(test)]
mod texts;
