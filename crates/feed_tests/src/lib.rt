#![tactic(auto)]

// Tests of feeds and feed files.
#[cfg(test)]
mod example;
#[cfg(test)]
mod large;
#[cfg(test)]
mod refusals;
