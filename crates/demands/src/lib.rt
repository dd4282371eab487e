// What is asked of any kernel, as predicates; that ours meets it and is the only one; and what doesn't meet it. No code is needed for it.
#![tactic(auto)]
