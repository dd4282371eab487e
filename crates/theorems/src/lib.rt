// What holds of the model for every sound table: sound stays sound, many ticks at once, answers, histories. No code is needed for it.
#![tactic(auto)]
