//! Worked examples as theorems: paths, tables and runs that are written out.
#![tactic(auto)]

pub mod samples;
