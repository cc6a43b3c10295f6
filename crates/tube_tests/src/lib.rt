//! Tubes followed through lists of watches and calls, with figures worked out apart from the code.
#![tactic(auto)]

#[cfg(test)]
mod edges;
#[cfg(test)]
mod tubes;
#[cfg(test)]
mod worked;
