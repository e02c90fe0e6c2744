// The words of a run: what nodes keep, the letters between them, what one turn may do, and where each process then is.
#![tactic(auto)]
