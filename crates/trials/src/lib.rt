//! Examples of calls, which run. They stand in a crate of their own, since a crate with tests is proved once more for them.
#![tactic(auto)]

#[cfg(test)]
mod filters;
#[cfg(test)]
mod keys;
#[cfg(test)]
mod prints;
#[cfg(test)]
mod rows;
#[cfg(test)]
mod streams;
#[cfg(test)]
mod texts;
