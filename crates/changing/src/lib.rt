// Marks that come and go: definitions and laws alone, for the jobs that add a mark or take one out.
#![tactic(auto)]
