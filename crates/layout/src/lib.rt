// The table as its image, shown of the definitions: what a change of some bytes leaves of the view, and that a table and its image are the
// same thing told twice. Laws alone, in proofs/.
#![tactic(auto)]
