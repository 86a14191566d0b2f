// General laws, of which nothing is the engine's: tests that are true or false, numbers compared, the order of ℤ, and a rule tested once over a table. The laws
// are in proofs/; there is no code here.
#![tactic(auto)]
