//! Which processes wait for a change, and which of them a change of a value wakes (IEEE 1800-2017, 9.4.2, 9.4.3, 9.2.2.2 and 10.3).
//!
//! - `edges` says which values of an event expression make its edge.
//! - `fires` says whether a change fires what is waited for.
//! - `objects` has the objects that are read by what is waited for, and `scoped` says whether it reads a variable of an activation.
//! - `watchers` has processes by number: those that watch an object, or variables of activations.
//! - `register` puts a process among the watchers of objects, and among those of variables.
//! - `waiter` has what a process waits for, with the scope in which it sees it.
//! - `transition` has a change of a vector, and `trial` a change for which processes are tried.
//! - `told` says what a change of a vector alone tells of what is waited for, and `part` what it tells of a part of the vector.
//! - `tries` tries those whom a change may wake, each in its own scope.
//! - `sense` has for what each process waits, and wakes those whom a change wakes.
#![tactic(auto)]

mod edges;
mod fires;
mod objects;
mod part;
mod register;
mod scoped;
mod sense;
mod told;
mod transition;
mod trial;
mod tries;
mod waiter;
mod watchers;

pub use sense::Sense;
pub use waiter::Waiter;
