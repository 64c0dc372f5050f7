//! Tests of what no clause says, across the crates: worked values from outside, and that ordinary calls succeed.
//! There is no other code here.
#![tactic(auto)]

#[cfg(test)]
mod asserted;
#[cfg(test)]
mod balance;
#[cfg(test)]
mod groups;
#[cfg(test)]
mod health;
#[cfg(test)]
mod ports;
#[cfg(test)]
mod schedules;
#[cfg(test)]
mod selection;
#[cfg(test)]
mod told;
#[cfg(test)]
mod weights;
