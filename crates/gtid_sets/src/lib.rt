// The theory of the resume set, no code: sets of transaction ids (key, gno), their one written form, how they grow, the set
// limits, and what a run of offers does to a set and to its saved bytes. `specs/` defines these; `proofs/` has the laws that
// the functions over sets, and the promises about them, cite.
#![tactic(auto)]
