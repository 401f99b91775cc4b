// What the split prints is read back as the table that it left (proofs/ReadBack.antt); no code is needed for it.
#![tactic(auto)]
