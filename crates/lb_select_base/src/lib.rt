//! What every selector needs: what a backend is, the words that a walk draws, the traits of selection, the unique walk, and `select`. A
//! walk's meaning is one relation between the draws that were made and the first candidates that came.
#![tactic(auto)]

mod address;
pub mod algorithms;
pub mod backend;
pub mod causes;
pub mod iter;
pub mod laws;
pub mod loads;
pub mod moments;
pub mod refusal;
pub mod seen;
pub mod select;
pub mod unique;
pub mod walk;
pub mod words;
