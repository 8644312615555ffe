// The bandwidth controller's calls but a reset on a record and tables of bytes: checks 1 to 3, then the words that a call names.
#![tactic(auto)]

pub mod read;
pub mod request;
pub mod wait;
pub mod window;
pub mod write;
