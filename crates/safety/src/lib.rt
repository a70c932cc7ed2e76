// Demand 3 on records: every step of document 01 moves a history and keeps everything true.
//
// proofs/ says what a row and a message tell that is true of a history (crate history), shows for each of the thirteen steps
// which move it makes and that row and message stay true, and carries this over to a hall seen as rows and sent messages: what
// readers show is chosen, so their pages agree, were offered and are never all blank. No bytes: a hall of blocks is such a view
// where blocks are known. No code.
#![tactic(auto)]
