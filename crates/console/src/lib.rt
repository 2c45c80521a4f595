//! What kernwords and filterlog share: the request that their arguments make, the words of a
//! filter and how they are printed, what is sent, and how a program ends.
#![tactic(auto)]

pub mod fault;
pub mod output;
pub mod program;
pub mod request;
pub mod storage;
pub mod text;
