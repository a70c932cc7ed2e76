// Demand 3 over the bytes of a hall: a loud shift stays loud on record.
//
// specs/ says what a run of steps makes of a hall and what its readers' pages are; proofs/ shows that from a fresh hall every
// block stays good, that each granted step is one of the thirteen of the crate safety on the rows and messages that the blocks
// hold, and so what is promised of the pages (Demand3). No code.
#![tactic(auto)]
