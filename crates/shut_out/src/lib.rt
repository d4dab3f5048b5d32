// Programs that look right and aren't, without code: specs/ has them, and proofs/ shuts each of them out by a demand of `promises` that it
// doesn't meet. A reader of the demands need not believe them; they show what the demands refuse.
#![tactic(auto)]
