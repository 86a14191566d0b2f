// Runs of calls on lent words, of any machine that is held to a model of it. There is no code here: specs/ says what a run is and when it agrees with the
// model, and proofs/ has the one induction over its calls.
#![tactic(auto)]
