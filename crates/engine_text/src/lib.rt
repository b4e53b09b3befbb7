//! A checked script as a Python program for an engine that runs tasks on many machines.
#![tactic(auto)]

mod calls;
mod dask;
mod expressions;
mod functions;
mod language;
mod program;
mod ray;
mod statements;

pub use program::{Engine, engine_text};
