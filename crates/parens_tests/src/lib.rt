#![tactic(auto)]

// Tests of parenthesis trees, of their directory and of the tables under them.
#[cfg(test)]
mod damage;
#[cfg(test)]
mod example;
#[cfg(test)]
mod large;
#[cfg(test)]
mod shapes;
