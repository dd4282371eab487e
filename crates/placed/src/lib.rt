// Where threads stand: a definition over the model and laws about it, on which both the code of the words and the theorems about calls go.
// No code is needed for it.
#![tactic(auto)]
