//! Tests of what threads share: locks, boards, checks, registries, services, and balancers. There is no code here but the tests'.
#![tactic(auto)]

#[cfg(test)]
mod asserted;
#[cfg(test)]
mod balancer;
#[cfg(test)]
mod boards;
#[cfg(test)]
mod boxed;
#[cfg(test)]
mod checks;
#[cfg(test)]
mod ends;
#[cfg(test)]
mod locks;
#[cfg(test)]
mod places;
#[cfg(test)]
mod registries;
#[cfg(test)]
mod service_fixtures;
#[cfg(test)]
mod services;
#[cfg(test)]
mod signals;
#[cfg(test)]
mod views;
