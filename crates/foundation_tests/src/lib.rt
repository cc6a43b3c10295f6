//! Figures for the arithmetic, the checked values and the interval box, worked out by hand or by an
//! independent reckoning over unbounded whole numbers.
#![tactic(auto)]

#[cfg(test)]
mod box_figures;
#[cfg(test)]
mod limits;
#[cfg(test)]
mod products;
#[cfg(test)]
mod roundings;
