//! Tests of the libraries' public calls that no scenario and no script of test_scenarios can state: devices that fail, large
//! values, calls that test_scenarios does not make. They start no threads.
//!
//! Every call is proved in its own crate, and a proof says nothing of memory that never ran out: so calls are run here
//! with ample memory. They have a crate of their own, since proving a crate's tests proves the crate once more.
#![tactic(auto)]

#[cfg(test)]
mod deep;
#[cfg(test)]
mod devices;
#[cfg(test)]
mod edits;
#[cfg(test)]
mod parts;
#[cfg(test)]
mod segment;
#[cfg(test)]
mod service;
#[cfg(test)]
mod shadow;
#[cfg(test)]
mod sizes;
#[cfg(test)]
mod sorted;
#[cfg(test)]
mod values;
#[cfg(test)]
mod words;
