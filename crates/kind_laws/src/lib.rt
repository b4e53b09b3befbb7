//! What follows of legal logs where the script is checked: what is handed to an attempt is of the kinds that it asks for, and main
//! alone prints.
#![tactic(auto)]

pub mod law;
