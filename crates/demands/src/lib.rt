// The user's three demands. There is no function here: `specs/` says what is asked and what is promised, `proofs/` proves it over the
// definitions of the controller, which the contracts of its functions cite.

#![tactic(auto)]
