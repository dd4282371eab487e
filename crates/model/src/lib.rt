// What the table, a request and a reply are made of, and the numbers that have names. What they mean stands in specs/, a file per section
// of document 01; that the code does just that is proved in the crates above.
#![tactic(auto)]

pub mod actions;
pub mod answers;
pub mod calls;
pub mod lists;
pub mod modes;
pub mod requests;
pub mod tables;
