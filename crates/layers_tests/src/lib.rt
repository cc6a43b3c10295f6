//! Figures for the halving, the split and the reduced product, reckoned apart from the code over
//! unbounded whole numbers, and stacks of layers in use.
#![tactic(auto)]

#[cfg(test)]
mod halving;
#[cfg(test)]
mod reducing;
#[cfg(test)]
mod splitting;
#[cfg(test)]
mod stacks;
