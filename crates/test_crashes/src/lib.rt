//! Tests of desks in tables that crash and are opened again.
//! They crash between two calls or right after one; what they are asked of is proved, and here it
//! runs.
#![tactic(auto)]

#[cfg(test)]
mod changes;
#[cfg(test)]
mod counted;
#[cfg(test)]
mod crashes;
#[cfg(test)]
mod desks;
#[cfg(test)]
mod earlier;
#[cfg(test)]
mod keeps;
#[cfg(test)]
mod opens;
#[cfg(test)]
mod stops;
#[cfg(test)]
mod tasks;
