// Rules of document 01 that need no table: numbers or one record in, an answer or one record out.
#![tactic(auto)]

pub mod actions;
pub mod conditions;
pub mod counting;
pub mod due;
pub mod numbers;
pub mod owners;
pub mod reports;
pub mod request_fields;
pub mod scheduling;
pub mod threads;
pub mod timers;
