//! Figures for the zonotope, reckoned apart from the code over unbounded whole numbers.
#![tactic(auto)]

#[cfg(test)]
mod folding;
#[cfg(test)]
mod limits;
#[cfg(test)]
mod shown;
#[cfg(test)]
mod steps;
