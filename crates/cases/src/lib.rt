// The marked cases of document 01, 'Both sides of each edge': one table in specs/, one proof.
#![tactic(auto)]
