//! Tests of what no clause says: lanes, feeds, drives and services between threads, and the program on devices that fail and
//! on large inputs.
#![tactic(auto)]

#[cfg(test)]
mod bell;
#[cfg(test)]
mod checkpoints;
#[cfg(test)]
mod closing;
#[cfg(test)]
mod delays;
#[cfg(test)]
mod drive;
#[cfg(test)]
mod feed;
#[cfg(test)]
mod handing;
#[cfg(test)]
mod hold;
#[cfg(test)]
mod idle;
#[cfg(test)]
mod lane;
#[cfg(test)]
mod program;
#[cfg(test)]
mod serve;
#[cfg(test)]
mod sources;
#[cfg(test)]
mod steps;
#[cfg(test)]
mod values;
#[cfg(test)]
mod wake;
