//! Tables made minimal and graded, the selectors that need no stack, and the main promise. No heap.
#![tactic(auto)]

mod backward;
pub mod begun;
pub mod clash;
mod components;
mod denials;
mod differing;
mod distances;
mod draft;
mod facts;
pub mod grade;
pub mod minimise;
mod moves;
mod notes;
mod pairs;
mod predecessors;
mod products;
mod reading;
pub mod registerless;
mod relations;
mod seeds;
mod spread;
pub mod stackless;
mod state_pair;
mod states;
mod tabulate;
mod walk;
pub mod word;
mod worklist;
