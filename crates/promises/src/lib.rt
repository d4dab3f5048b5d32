// The three demands on one page, without code: read specs/ first. Every statement is about the definitions that the library's functions
// promise, and most are about any reader, writer or offer, so that a wrong one put in the place of ours is refused.
#![tactic(auto)]
