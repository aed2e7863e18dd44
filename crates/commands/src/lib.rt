//! The commands, each in the module of its verb.
//!
//! A command loads what it reads (`command_ends`), does its work in a crate below, and writes or
//! prints what it makes; each step's refusal becomes the [`Stop`](outcomes::Stop) that tells how
//! the run ends. `specs/Replies`, `specs/Texts` and `specs/Files` say what the commands promise, by
//! what they make.
#![tactic(auto)]

pub mod answer;
pub mod audit;
pub mod blocks;
pub mod bquery;
pub mod build;
pub mod export;
pub mod generate;
pub mod inspect;
pub mod iquery;
pub mod joining;
pub mod merge;
pub mod migrate;
pub mod query;
pub mod remapping;
mod side_loading;
