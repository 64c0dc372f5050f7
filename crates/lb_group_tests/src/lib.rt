//! Tests of groups that threads share, and of groups with checks. There is no code here but the tests'.
#![tactic(auto)]

#[cfg(test)]
mod asserted;
#[cfg(test)]
mod boxed;
#[cfg(test)]
mod fixtures;
#[cfg(test)]
mod groups;
#[cfg(test)]
mod noted;
#[cfg(test)]
mod slots;
