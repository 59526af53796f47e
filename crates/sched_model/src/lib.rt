//! Definitions for contracts about schedulers: which jobs the size-tiered scheduler proposes on a
//! view and which it accepts, and which jobs the levelled scheduler proposes. The definitions are
//! in specs/. The contracts of the module `worked` are worked examples of them.
#![tactic(auto)]

pub mod worked;
