// The mathematics of demand 3: why a line that a reader has shown stays as it was.
//
// A history holds all that boxes voted, racks proposed and coordinators opened, by round. specs/ has
// the history, its invariant (appendix A of source document 004, said line by line) and the moves that
// the steps make in it; proofs/ shows that each move keeps the invariant, that chosen lines stay, agree,
// were offered and are never all blank. No rows, messages or bytes: which step makes which move is said
// where those are. No code.
#![tactic(auto)]
