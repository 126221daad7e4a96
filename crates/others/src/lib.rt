// Request Fourteen, other people's jobs: no function stands here. What our run gives to a set of tasks is said in `specs/Others.antt` and
// promised in `proofs/Promise.antt`, of the library's own run and verdict.
#![tactic(auto)]
