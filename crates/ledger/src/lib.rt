// No code: document 01's ledger (specs/) and the theorem that the journal's calls keep to it (proofs/).
#![tactic(auto)]
