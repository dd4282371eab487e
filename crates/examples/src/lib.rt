// The examples of document 01, as data in specs/ and one proved statement for each table in proofs/. No code is needed for them: they are
// computed from the definitions of crates/model.
#![tactic(auto)]
