//! Tests of health, registries, views and passes of checks: worked values from outside, and what a pass tells a check and a log.
mod boxed;
mod discoveries;
mod passes;
mod registries;
mod views;
