//! The words of cases, which are lines that ask for single calls, and of their answers.
#![tactic(auto)]

pub mod flaw;
pub mod given_rows;
pub mod parse;
pub mod tables;
pub mod tell;
mod texts;
pub mod words;
