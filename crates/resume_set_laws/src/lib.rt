// The history that a resume set tells, without code: which ids are members after any events, that a run which is stopped, saved and fed
// again from its start ends in identical bytes, and that a refusal changes nothing. It is said of whatever gives events to a set, and proved
// of the definitions that `take_in` and `offer` of `resume_set` promise, so it holds of what those functions answer and write.
#![tactic(auto)]
